//! The line that says what could stand at a place.
ghost use Rattle.std.specs.Prelude.{◌≡◌, ◌≢◌, ◌≤◌, ◌^◌, [], IfOk, length};
ghost use Rattle.refusal_tokens.specs.Fronts.{IsFront};
ghost use Rattle.refusal_tokens.specs.Hints.{IsLine, line};

use crate::front::front_at;
use crate::listing::standing_list;
use crate::standing::{those_of, words_behind};
use crate::tables::{MARKS, OPERATORS, VALUES};
use perm_values::{Bytes, NoMemory};
use refusal_hints::from;
use std::alloc::Global;

/// The number of the code of a token that can't stand.
const TOKEN: u8 = 5;

/// How long a front is looked at.
const LIMIT: usize = 1 << 14;

/// The line that says what could stand where a script is refused with the code of this number at an offset; nothing of a code that isn't
/// that of a token that can't stand. It fails only for want of memory.
pub fn token_hint(alloc: Global, code: u8, script: &[u8], at: usize) -> Result<Bytes, NoMemory>
    ensures token { code ≡ 5 → IfOk result (λ hint. IsLine script.now at hint) }
    ensures other { code ≢ 5 → IfOk result (λ hint. hint ≡ []) }
{
    if code == TOKEN {
        line_at(alloc, script, at)
    } else {
        Ok(Bytes::new(alloc))
    }
}

/// The line at a place.
fn line_at(alloc: Global, script: &[u8], at: usize) -> Result<Bytes, NoMemory>
    ensures { IfOk result (λ hint. IsLine script.now at hint) }
{
    match front_at(alloc, script, at)? {
        None => Ok(Bytes::new(alloc)),
        Some(front) => short_line(alloc, script, at, front),
    }
}

/// The line at a place with this front, where that isn't too long.
fn short_line(alloc: Global, script: &[u8], at: usize, front: &[u8]) -> Result<Bytes, NoMemory>
    requires { IsFront script.now at front.now }
    ensures { IfOk result (λ hint. IsLine script.now at hint) }
{
    if front.len() > LIMIT {
        return Ok(Bytes::new(alloc));
    }
    line_behind(alloc, script, at, front)
}

/// The line at a place, with what stands of its statement in front of it.
fn line_behind(alloc: Global, script: &[u8], at: usize, front: &[u8]) -> Result<Bytes, NoMemory>
    requires front { IsFront script.now at front.now }
    requires short { length front.now ≤ 2 ^ 14 }
    ensures { IfOk result (λ hint. IsLine script.now at hint) }
{
    let values = those_of(alloc, front, &VALUES)?;
    let words = words_behind(alloc, front)?;
    let operators = those_of(alloc, front, &OPERATORS)?;
    let marks = those_of(alloc, front, &MARKS)?;
    let list = standing_list(
        alloc,
        values.as_slice(),
        words.as_slice(),
        operators.as_slice(),
        marks.as_slice(),
    )?;
    line(alloc, list.as_slice())
}

/// A list as a line, where there is something in it.
fn line(alloc: Global, list: &[u8]) -> Result<Bytes, NoMemory>
    ensures { IfOk result (λ made. made ≡ line list.now) }
{
    let mut made = Bytes::new(alloc);
    if list.is_empty() {
        return Ok(made);
    }
    made.add(b"hint: here could stand: ")?;
    made.add(from(list, 2))?;
    made.add(b"\n")?;
    Ok(made)
}
