//! What a person is advised where a script is refused.
ghost use Rattle.std.specs.Prelude.{◌≡◌, IfOk};
ghost use Rattle.refusal_hints.specs.Hints.{code_advice, fault_advice, name_advice, place_advice, script_hint, small, spelling_advice};

use crate::clues::{statement_before, word_at, word_before};
use crate::near::near_names;
use crate::pieces::first_statement_advice;
use crate::slices::{from, or_else, up_to};
use crate::tables::{name_advice as name_text_advice, text_advice};
use perm_values::{Bytes, NoMemory};
use std::alloc::Global;

/// What a person is advised where a script is refused with the code of this number at an offset; nothing where nothing is known to help.
/// It fails only for want of memory.
pub fn script_hint(alloc: Global, code: u8, script: &[u8], at: usize) -> Result<Bytes, NoMemory>
    ensures { IfOk result (λ advice. advice ≡ script_hint code script.now at) }
{
    let small = small(alloc, script)?;
    if code == 10 || code == 11 {
        return name_hint(alloc, small.as_slice(), at);
    }
    let mut advice = Bytes::new(alloc);
    advice.add(place_advice(code, small.as_slice(), at))?;
    Ok(advice)
}

/// The script in small letters.
fn small(alloc: Global, script: &[u8]) -> Result<Vec<u8>, NoMemory>
    ensures { IfOk result (λ made. made.items ≡ small script.now) }
{
    Ok(
        script
            .iter()
            .map(|byte| byte.to_ascii_lowercase())
            .collect(alloc)?,
    )
}

/// What is advised in the place of a name.
fn name_hint(alloc: Global, script: &[u8], at: usize) -> Result<Bytes, NoMemory>
    ensures { IfOk result (λ advice. advice ≡ name_advice script.now at) }
{
    let known = or_else(
        name_text_advice(word_at(script, at)),
        name_text_advice(up_to(from(script, at), 1)),
    );
    if known.is_empty() {
        return near_names(alloc, script, at);
    }
    let mut advice = Bytes::new(alloc);
    advice.add(known)?;
    Ok(advice)
}

/// What is advised at a place by what stands there, or by the code alone.
fn place_advice(code: u8, script: &[u8], at: usize) -> &'static [u8]
    ensures { result.now ≡ place_advice code script.now at }
{
    if code < 10 {
        or_else(spelling_advice(script, at), code_advice(code))
    } else {
        code_advice(code)
    }
}

/// What is advised by what stands at a place, just before it, or in its statement.
fn spelling_advice(script: &[u8], at: usize) -> &'static [u8]
    ensures { result.now ≡ spelling_advice script.now at }
{
    let here = from(script, at);
    let marks = or_else(
        text_advice(up_to(here, 2)),
        text_advice(up_to(from(script, at.saturating_sub(1)), 2)),
    );
    let before = or_else(
        text_advice(word_before(script, at)),
        text_advice(up_to(here, 1)),
    );
    let near = or_else(or_else(text_advice(word_at(script, at)), marks), before);
    or_else(near, first_statement_advice(statement_before(script, at)))
}

/// What is advised by the code of this number alone.
fn code_advice(code: u8) -> &'static [u8]
    ensures { result.now ≡ code_advice code }
{
    match code {
        1 => b"save the script as UTF-8",
        12 => b"write its item of FROM before it, as in item.column",
        15 => b"give it another name, as in FROM r x, r y",
        20 => b"kinds are never changed: '1' is a text, 1 an integer, 1 = 1 a truth value",
        23 => b"a condition on an aggregate stands in HAVING",
        _ => fault_advice(code),
    }
}

/// What is advised by the code of a fault.
fn fault_advice(code: u8) -> &'static [u8]
    ensures { result.now ≡ fault_advice code }
{
    match code {
        30 => b"x / NULLIF(y, 0) is NULL where y is 0",
        32 =>
            b"MAX or MIN in the subquery gives one value, and IN and EXISTS take any number of rows",
        _ => b"",
    }
}
