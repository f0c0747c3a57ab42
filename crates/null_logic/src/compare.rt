ghost use Rattle.std.specs.Prelude.{◌≡◌, IfOk};
ghost use Rattle.null_logic.specs.Comparison.{holds, compare_values};
ghost use Rattle.null_logic.specs.Operators.{compare_spelling};

use crate::Truth;
use perm_values::{Copyable, NoMemory, Value};
use std::alloc::Global;
use std::cmp::Ordering;

/// A comparison (ISO/IEC 9075-2, 'comparison predicate').
#[derive(Clone, Copy, PartialEq, Eq)]
pub enum Compare {
    Equal,
    NotEqual,
    Less,
    LessEqual,
    Greater,
    GreaterEqual,
}

impl Compare {
    /// How SQL writes it.
    pub fn spelling(self) -> &'static str
        ensures { result.now ≡ compare_spelling self }
    {
        match self {
            Compare::Equal => "=",
            Compare::NotEqual => "<>",
            Compare::Less => "<",
            Compare::LessEqual => "<=",
            Compare::Greater => ">",
            Compare::GreaterEqual => ">=",
        }
    }

    fn holds(self, order: Ordering) -> bool
        ensures { result ≡ holds self order }
    {
        match self {
            Compare::Equal => order.is_eq(),
            Compare::NotEqual => order.is_ne(),
            Compare::Less => order.is_lt(),
            Compare::LessEqual => order.is_le(),
            Compare::Greater => order.is_gt(),
            Compare::GreaterEqual => order.is_ge(),
        }
    }
}

/// The truth of a comparison: unknown beside NULL, otherwise by the order of values.
pub fn compare_values(op: Compare, left: &Value, right: &Value) -> Truth
    ensures { result ≡ compare_values op left.now right.now }
{
    match (left, right) {
        (Value::Null, _) | (_, Value::Null) => Truth::Unknown,
        _ => Truth::known(op.holds(left.order(right))),
    }
}

impl Copyable for Compare {
    fn copy(&self, _alloc: Global) -> Result<Compare, NoMemory> {
        Ok(*self)
    }
}
