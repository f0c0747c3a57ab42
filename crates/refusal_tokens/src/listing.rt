//! What could stand, as a list.
ghost use Rattle.std.specs.Prelude.{◌≡◌, ◌++◌, IfOk, OnOk, codes, take};
ghost use Rattle.std.specs.List.{flat_map};
ghost use Rattle.refusal_tokens.specs.Hints.{kind_of, listed, standing_list, told};
ghost use Rattle.refusal_tokens.specs.Tables.{texts_of};

use perm_values::{Bytes, NoMemory};
use std::alloc::Global;

/// What is said of values, words, operators and marks that could stand: each, or their kinds where there are more than eight.
pub(crate) fn standing_list(
    alloc: Global,
    values: &[&'static str],
    words: &[&'static str],
    operators: &[&'static str],
    marks: &[&'static str],
) -> Result<Bytes, NoMemory>
    ensures { IfOk result (λ list. list ≡ standing_list (texts_of values.now) (texts_of words.now)
        (texts_of operators.now) (texts_of marks.now)) }
{
    let mut list = Bytes::new(alloc);
    add_listed(&mut list, values)?;
    if values.len() + words.len() + operators.len() + marks.len() <= MOST {
        add_listed(&mut list, words)?;
        add_listed(&mut list, operators)?;
    } else {
        add_kind(&mut list, b"a word such as ", words)?;
        add_kind(&mut list, b"an operator such as ", operators)?;
    }
    add_listed(&mut list, marks)?;
    Ok(list)
}

/// How many are told one by one.
const MOST: usize = 8;

/// Adds texts, each behind a comma.
fn add_listed(list: &mut Bytes, texts: &[&'static str]) -> Result<(), NoMemory>
    ensures { OnOk result (list.new ≡ list.old ++ listed (texts_of texts.now)) }
{
    for text in texts {
        list.add(b", ")?;
        list.add(told(text))?;
    }
    Ok(())
}

/// Adds a kind of texts, with three of them at most.
fn add_kind(list: &mut Bytes, kind: &[u8], texts: &[&'static str]) -> Result<(), NoMemory>
    ensures { OnOk result (list.new ≡ list.old ++ kind_of kind.now (texts_of texts.now)) }
{
    match texts {
        [] => Ok(()),
        [first, others @ ..] => {
            list.add(b", ")?;
            list.add(kind)?;
            list.add(first.as_bytes())?;
            add_others(list, others)
        }
    }
}

/// Adds two further texts at most.
fn add_others(list: &mut Bytes, others: &[&'static str]) -> Result<(), NoMemory>
    ensures { OnOk result (list.new ≡ list.old
        ++ flat_map (λ text. codes " or " ++ text) (take 2 (texts_of others.now))) }
{
    let few = first_two(others);
    for text in few {
        list.add(b" or ")?;
        list.add(text.as_bytes())?;
    }
    Ok(())
}

/// The first two, or all.
fn first_two<'a>(texts: &'a [&'static str]) -> &'a [&'static str]
    ensures { result.now ≡ take 2 texts.now }
{
    if texts.len() <= 2 { texts } else { &texts[..2] }
}

/// How a text that could stand is told.
fn told(text: &'static str) -> &'static [u8]
    ensures { result.now ≡ told text.now }
{
    match text {
        "x" => b"a name",
        "1" => b"a number",
        "''" => b"a text",
        "," => b"a comma",
        "." => b"a point",
        ";" => b"a semicolon",
        _ => text.as_bytes(),
    }
}
