//! The words of the command line, and what they ask for.
ghost use Rattle.std.specs.Prelude.{◌≡◌, [], IfOk, IfErr, option_map};
ghost use Rattle.clap.specs.Walk.{texts};
ghost use Rattle.clap.specs.Words.{HasKind, fault_of, found_of, matches_of, rows_of};
ghost use Rattle.clap.specs.declared.error.kind.ErrorKind.TheVariants.{OutOfMemory};
ghost use Rattle.perm_engine.specs.declared.meaning.words.wanted.Wanted.TheVariants.{Misworded};
ghost use Rattle.perm_engine.specs.meaning.words.Requests.{command, numbered, one_of_both, request_of};

use clap::builder::ValueParser;
use clap::error::ErrorKind;
use clap::{Arg, ArgMatches, Command, Error};
use perm_values::{Chars, NoMemory};
use std::alloc::Global;

mod laws;
mod wanted;

pub use laws::{
    a_number_lies_in_its_range, a_word_without_a_dash_is_a_script, other_words_are_refused,
};
pub use wanted::Wanted;

/// What the words behind the program's name ask for. It fails only for want of memory.
pub fn read_words(alloc: Global, words: &[Chars]) -> Result<Wanted, NoMemory>
    ensures { IfOk result (λ wanted. wanted ≡ request_of words.now) }
{
    let texts = texts_of(alloc, words)?;
    let found = parsed(alloc, texts.as_slice());
    match found {
        Ok(matches) => given(
            alloc,
            matches.get_str("script"),
            matches.get_str("generate"),
        ),
        Err(error) => refused(error.kind()),
    }
}

/// What words ask for that `clap` refuses so.
fn refused(kind: ErrorKind) -> Result<Wanted, NoMemory>
    ensures { IfOk result (λ wanted. (wanted ≡ Misworded) × (kind ≡ OutOfMemory → ⊥)) }
{
    match kind {
        ErrorKind::OutOfMemory => Err(NoMemory),
        _ => Ok(Wanted::Misworded),
    }
}

fn texts_of<'a>(alloc: Global, words: &'a [Chars]) -> Result<Vec<&'a str>, NoMemory>
    ensures { IfOk result (λ found. texts found.items ≡ words.now) }
{
    let mut found = Vec::new(alloc);
    for word in words {
        found.push(word.as_str())?;
    }
    Ok(found)
}

/// What `clap` finds in the words, or why it finds them wrong.
fn parsed<'a, 'w>(alloc: Global, words: &'a [&'w str]) -> Result<ArgMatches<'a>, Error>
    ensures taken { IfOk result (λ _. fault_of command (texts words.now) ≡ []) }
    ensures rows { IfOk result (λ matches.
        rows_of (found_of matches) ≡ matches_of command (texts words.now)) }
    ensures refused { IfErr result (HasKind (fault_of command (texts words.now))) }
{
    let script = Arg::new(alloc, "script");
    let rows = Arg::new(alloc, "generate")
        .long("generate")
        .value_parser(ValueParser::unsigned(1, 100_000));
    let command = Command::new(alloc, "perm")
        .no_binary_name(true)
        .arg(script)?
        .arg(rows)?;
    command.try_get_matches_from(words)
}

/// The script, or the number of rows; with both or neither of them the words are refused.
fn given(alloc: Global, script: Option<&str>, rows: Option<&str>) -> Result<Wanted, NoMemory>
    ensures { IfOk result (λ wanted.
        wanted ≡ one_of_both (option_map (λ s. s.now) script.entry) (option_map (λ s. s.now) rows.entry)) }
{
    match (script, rows) {
        (Some(name), None) => Ok(Wanted::Script(Chars::from_text(alloc, name)?)),
        (None, Some(text)) => Ok(numbered(text)),
        (Some(_), Some(_)) => Ok(Wanted::Misworded),
        (None, None) => Ok(Wanted::Misworded),
    }
}

/// The number that the text names, from 1 to 100,000.
fn numbered(text: &str) -> Wanted
    ensures { result ≡ numbered text.now }
{
    match text.parse::<u64>() {
        Ok(rows) => {
            if 1 <= rows && rows <= 100_000 {
                Wanted::Generated(rows as u32)
            } else {
                Wanted::Misworded
            }
        }
        Err(_) => Wanted::Misworded,
    }
}
