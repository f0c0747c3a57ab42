//! What stands around the parts of an operator, and between them.
ghost use Rattle.std.specs.Prelude.{◌≡◌, cond};
ghost use Rattle.tree_texts.specs.expressions.Words.{back, first_between, front, is_any, is_one, is_said, is_several, is_three, is_two, later_between, separator};

use crate::expressions::words::compare_text;
use null_logic::Operator;

fn either(is_first: bool, first: &'static [u8], second: &'static [u8]) -> &'static [u8]
    ensures { result.now ≡ cond is_first first.now second.now }
{
    if is_first { first } else { second }
}

fn is_one(count: usize) -> bool
    ensures { result ≡ is_one count }
{
    count == 1
}

fn is_two(count: usize) -> bool
    ensures { result ≡ is_two count }
{
    count == 2
}

fn is_three(count: usize) -> bool
    ensures { result ≡ is_three count }
{
    count == 3
}

fn is_several(count: usize) -> bool
    ensures { result ≡ is_several count }
{
    count > 1
}

fn is_any(count: usize) -> bool
    ensures { result ≡ is_any count }
{
    count > 0
}

/// Whether an operator can be written with so many parts.
pub(crate) fn is_said(op: Operator, count: usize) -> bool
    ensures { result ≡ is_said op count }
{
    match op {
        Operator::And => is_several(count),
        Operator::Or => is_several(count),
        Operator::Not => is_one(count),
        Operator::Negate => is_one(count),
        Operator::Compare(_) => is_two(count),
        Operator::Arith(_) => false,
        Operator::Like => is_two(count),
        Operator::Between => is_three(count),
        Operator::InList => is_several(count),
        Operator::Coalesce => is_any(count),
        Operator::NullIf => is_two(count),
    }
}

/// What stands before the parts.
pub(crate) fn front(op: Operator, count: usize) -> &'static [u8]
    ensures { result.now ≡ front op count }
{
    match op {
        Operator::And => b"( ",
        Operator::Or => b"( ",
        Operator::Not => b"( NOT ",
        Operator::Negate => b"( - ",
        Operator::Compare(_) => b"( ",
        Operator::Arith(_) => b"",
        Operator::Like => b"( ",
        Operator::Between => b"( ",
        Operator::InList => b"( ",
        Operator::Coalesce => either(is_one(count), b"", b"COALESCE ( "),
        Operator::NullIf => b"NULLIF ( ",
    }
}

/// What stands between the first two parts.
pub(crate) fn first_between(op: Operator, count: usize) -> &'static [u8]
    ensures { result.now ≡ first_between op count }
{
    match op {
        Operator::And => b"AND ",
        Operator::Or => b"OR ",
        Operator::Not => b"",
        Operator::Negate => b"",
        Operator::Compare(compare) => compare_text(compare),
        Operator::Arith(_) => b"",
        Operator::Like => b"LIKE ",
        Operator::Between => b"BETWEEN ",
        Operator::InList => either(is_two(count), b"= ", b"IN ( "),
        Operator::Coalesce => b", ",
        Operator::NullIf => b", ",
    }
}

/// What stands between the others.
pub(crate) fn later_between(op: Operator) -> &'static [u8]
    ensures { result.now ≡ later_between op }
{
    match op {
        Operator::And => b"AND ",
        Operator::Or => b"OR ",
        Operator::Not => b"",
        Operator::Negate => b"",
        Operator::Compare(_) => b"",
        Operator::Arith(_) => b"",
        Operator::Like => b"",
        Operator::Between => b"AND ",
        Operator::InList => b", ",
        Operator::Coalesce => b", ",
        Operator::NullIf => b"",
    }
}

/// What stands behind the parts.
pub(crate) fn back(op: Operator, count: usize) -> &'static [u8]
    ensures { result.now ≡ back op count }
{
    match op {
        Operator::And => b") ",
        Operator::Or => b") ",
        Operator::Not => b") ",
        Operator::Negate => b") ",
        Operator::Compare(_) => b") ",
        Operator::Arith(_) => b"",
        Operator::Like => b") ",
        Operator::Between => b") ",
        Operator::InList => either(is_two(count), b") ", b") ) "),
        Operator::Coalesce => either(is_one(count), b"", b") "),
        Operator::NullIf => b") ",
    }
}

/// What stands before the part of a number.
pub(crate) fn separator(first: &'static [u8], later: &'static [u8], number: usize) -> &'static [u8]
    ensures { result.now ≡ separator first.now later.now number }
{
    let behind = either(is_one(number), first, later);
    either(number == 0, b"", behind)
}
