//! Names of a script in small letters that are spelt nearly like one that is refused.
ghost use Rattle.std.specs.Prelude.{◌≡◌, ◌||◌, [], ◌++◌, IfOk, OnOk};
ghost use Rattle.std.specs.Str.{bytes_eq};
ghost use Rattle.refusal_hints.specs.Distance.{is_near};
ghost use Rattle.refusal_hints.specs.Names.{first_wanted, is_wanted, listed, listing, names, near_name, near_names};
ghost use Rattle.refusal_hints.specs.Words.{pieces};

use crate::clues::{word_at, word_length};
use crate::distance::is_near;
use crate::names::{column_at, made_name};
use crate::slices::{from, or_else, same, up_to};
use perm_values::{Bytes, NoMemory};
use std::alloc::Global;

/// What is looked for: a name that is spelt nearly like an item or a column, and is neither of these nor of two that were found.
#[derive(Clone, Copy)]
struct Wanted<'a> {
    item: &'a [u8],
    column: &'a [u8],
    found: &'a [u8],
    more: &'a [u8],
}

impl Wanted<'_> {
    /// Whether this is such a name.
    fn is_met(&self, name: &[u8]) -> bool
        ensures { result ≡ is_wanted self.now.item.now self.now.column.now self.now.found.now
            self.now.more.now name.now }
    {
        !name.is_empty() && self.is_like(name) && !self.is_known(name)
    }

    /// Whether the name is spelt nearly like the item or the column.
    fn is_like(&self, name: &[u8]) -> bool
        ensures { result ≡ (is_near self.now.item.now name.now || is_near self.now.column.now name.now) }
    {
        is_near(self.item, name) || is_near(self.column, name)
    }

    /// Whether the name is one of the four.
    fn is_known(&self, name: &[u8]) -> bool
        ensures { result ≡ (bytes_eq name.now self.now.item.now || bytes_eq name.now self.now.column.now
            || bytes_eq name.now self.now.found.now || bytes_eq name.now self.now.more.now) }
    {
        same(name, self.item)
            || same(name, self.column)
            || same(name, self.found)
            || same(name, self.more)
    }
}

/// At most three names of the script that are spelt nearly like what stands at a place, as a sentence; nothing where none is.
pub(crate) fn near_names(alloc: Global, script: &[u8], at: usize) -> Result<Bytes, NoMemory>
    ensures { IfOk result (λ sentence. sentence ≡ near_names script.now at) }
{
    let first = near_name(script, at, b"", b"");
    let second = near_name(script, at, first, b"");
    let third = near_name(script, at, first, second);
    listing(alloc, first, second, third)
}

/// A sentence of three names, of which the last ones may be none.
fn listing(alloc: Global, first: &[u8], second: &[u8], third: &[u8]) -> Result<Bytes, NoMemory>
    ensures { IfOk result (λ sentence. sentence ≡ listing first.now second.now third.now) }
{
    let mut sentence = Bytes::new(alloc);
    if first.is_empty() {
        return Ok(sentence);
    }
    sentence.add(b"names that are spelt nearly so: ")?;
    sentence.add(first)?;
    add_listed(&mut sentence, second)?;
    add_listed(&mut sentence, third)?;
    Ok(sentence)
}

/// Adds a further name, if it is one.
fn add_listed(sentence: &mut Bytes, name: &[u8]) -> Result<(), NoMemory>
    ensures { OnOk result (sentence.new ≡ sentence.old ++ listed name.now) }
{
    if name.is_empty() {
        return Ok(());
    }
    sentence.add(b", ")?;
    sentence.add(name)
}

/// The first name of the script that is spelt nearly like what stands at a place, besides two that were found.
fn near_name<'a>(script: &'a [u8], at: usize, found: &'a [u8], more: &'a [u8]) -> &'a [u8]
    ensures { result.now ≡ near_name script.now at found.now more.now }
{
    let wanted = Wanted {
        item: word_at(script, at),
        column: column_at(script, at),
        found,
        more,
    };
    first_wanted(&wanted, script)
}

/// The first name of the script that is wanted.
#[tactic(auto, using(crate::proofs::Parted::wanted_found, crate::proofs::Parted::wanted_further, crate::proofs::Parted::wanted_nowhere))]
fn first_wanted<'a>(wanted: &Wanted<'_>, script: &'a [u8]) -> &'a [u8]
    ensures { result.now ≡ first_wanted (is_wanted wanted.now.item.now wanted.now.column.now
        wanted.now.found.now wanted.now.more.now) (names [] (pieces script.now)) }
{
    let mut rest = script;
    let mut before: &[u8] = &[];
    'words: loop {
        let end = word_length(rest);
        let word = up_to(rest, end);
        let name = made_name(before, word);
        if wanted.is_met(name) {
            return name;
        }
        if end >= rest.len() {
            return &[];
        }
        before = or_else(word, before);
        rest = from(rest, end + 1);
    }
}
