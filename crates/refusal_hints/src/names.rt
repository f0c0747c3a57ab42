//! The names that a script in small letters makes.
ghost use Rattle.std.specs.Prelude.{◌≡◌};
ghost use Rattle.refusal_hints.specs.Names.{column_at, is_kind, is_maker, made_name};

use crate::clues::word_at;
use crate::slices::{from, same, up_to};

/// The name that two words make which stand one behind the other.
pub(crate) fn made_name<'a>(before: &'a [u8], word: &'a [u8]) -> &'a [u8]
    ensures { result.now ≡ made_name before.now word.now }
{
    if is_maker(before) {
        word
    } else if is_kind(word) {
        before
    } else {
        &[]
    }
}

/// Whether a name stands behind this word.
fn is_maker(word: &[u8]) -> bool
    ensures { result ≡ is_maker word.now }
{
    same(word, b"table") || same(word, b"view") || same(word, b"as")
}

/// Whether a name stands before this word.
fn is_kind(word: &[u8]) -> bool
    ensures { result ≡ is_kind word.now }
{
    same(word, b"integer") || same(word, b"int") || same(word, b"bigint") || same(word, b"text")
}

/// The word behind a point that stands right behind the word at a place.
pub(crate) fn column_at(script: &[u8], at: usize) -> &[u8]
    ensures { result.now ≡ column_at script.now at }
{
    let rest = from(script, at);
    let behind = from(rest, word_at(script, at).len());
    if same(up_to(behind, 1), b".") {
        word_at(behind, 1)
    } else {
        &[]
    }
}
