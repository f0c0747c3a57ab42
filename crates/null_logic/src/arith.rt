ghost use Rattle.std.specs.Prelude.{◌≡◌, IfOk};
ghost use Rattle.null_logic.specs.Arithmetic.{calculate, negate};
ghost use Rattle.null_logic.specs.Operators.{arith_spelling};

use crate::RunFault;
use perm_values::{Copyable, NoMemory};
use std::alloc::Global;

/// An operation on integers (ISO/IEC 9075-2, 'numeric value expression'; `%` is its MOD).
#[derive(Clone, Copy, PartialEq, Eq)]
pub enum Arith {
    Add,
    Subtract,
    Multiply,
    Divide,
    Remainder,
}

impl Arith {
    /// How SQL writes it.
    pub fn spelling(self) -> &'static str
        ensures { result.now ≡ arith_spelling self }
    {
        match self {
            Arith::Add => "+",
            Arith::Subtract => "-",
            Arith::Multiply => "*",
            Arith::Divide => "/",
            Arith::Remainder => "%",
        }
    }
}

/// The exact result. A quotient goes towards zero, and a remainder has the sign of the dividend.
///
/// `DivideByZero` comes exactly where a quotient or a remainder by 0 is asked for, `OutOfRange` exactly where the
/// exact result is no 64-bit integer: the least integer `/ -1` is out of range, `% -1` is always 0.
pub fn calculate(op: Arith, left: i64, right: i64) -> Result<i64, RunFault>
    ensures { result ≡ calculate op left right }
{
    match op {
        Arith::Add => left.checked_add(right).ok_or(RunFault::OutOfRange),
        Arith::Subtract => left.checked_sub(right).ok_or(RunFault::OutOfRange),
        Arith::Multiply => left.checked_mul(right).ok_or(RunFault::OutOfRange),
        Arith::Divide => quotient(left, right),
        Arith::Remainder => remainder(left, right),
    }
}

fn quotient(left: i64, right: i64) -> Result<i64, RunFault>
    ensures { result ≡ calculate Arith.Divide left right }
{
    if right == 0 {
        return Err(RunFault::DivideByZero);
    }
    left.checked_div(right).ok_or(RunFault::OutOfRange)
}

fn remainder(left: i64, right: i64) -> Result<i64, RunFault>
    ensures { result ≡ calculate Arith.Remainder left right }
{
    match right {
        0 => Err(RunFault::DivideByZero),
        -1 => Ok(0),
        _ => Ok(left % right),
    }
}

/// The number with its sign changed; `OutOfRange` exactly at the least integer.
pub fn negate(number: i64) -> Result<i64, RunFault>
    ensures { result ≡ negate number }
{
    number.checked_neg().ok_or(RunFault::OutOfRange)
}

impl Copyable for Arith {
    fn copy(&self, _alloc: Global) -> Result<Arith, NoMemory> {
        Ok(*self)
    }
}
