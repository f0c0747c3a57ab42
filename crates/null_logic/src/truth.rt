ghost use Rattle.std.specs.Prelude.{◌≡◌, IfOk};
ghost use Rattle.null_logic.specs.Logic.{truth_and, truth_or, truth_not, is_true, known, truth_of, value_of};

use perm_values::{Copyable, NoMemory, Value};
use std::alloc::Global;

/// A truth value of the three-valued logic (ISO/IEC 9075-2, 'boolean value expression').
#[derive(Clone, Copy, PartialEq, Eq)]
pub enum Truth {
    True,
    False,
    Unknown,
}

impl Truth {
    /// AND: false beside false, true of two that are true, else unknown.
    pub fn and(self, other: Truth) -> Truth
        ensures { result ≡ truth_and self other }
    {
        match (self, other) {
            (Truth::False, _) | (_, Truth::False) => Truth::False,
            (Truth::True, Truth::True) => Truth::True,
            _ => Truth::Unknown,
        }
    }

    /// OR: true beside true, false of two that are false, else unknown.
    pub fn or(self, other: Truth) -> Truth
        ensures { result ≡ truth_or self other }
    {
        match (self, other) {
            (Truth::True, _) | (_, Truth::True) => Truth::True,
            (Truth::False, Truth::False) => Truth::False,
            _ => Truth::Unknown,
        }
    }

    /// NOT: true and false change places, and unknown stays.
    pub fn not(self) -> Truth
        ensures { result ≡ truth_not self }
    {
        match self {
            Truth::True => Truth::False,
            Truth::False => Truth::True,
            Truth::Unknown => Truth::Unknown,
        }
    }

    /// Whether a condition of this truth keeps a row (ISO/IEC 9075-2, 'where clause').
    pub fn is_true(self) -> bool
        ensures { result ≡ is_true self }
    {
        self == Truth::True
    }

    /// The truth of what is known to hold or not.
    pub(crate) fn known(fact: bool) -> Truth
        ensures { result ≡ known fact }
    {
        if fact { Truth::True } else { Truth::False }
    }

    /// The truth of a boolean; NULL is unknown, and so is any value of another kind.
    pub fn of(value: &Value) -> Truth
        ensures { result ≡ truth_of value.now }
    {
        match value {
            Value::Boolean(fact) => Truth::known(*fact),
            Value::Null | Value::Integer(_) | Value::Text(_) => Truth::Unknown,
        }
    }

    /// The boolean of this truth; unknown is NULL.
    pub fn value(self) -> Value
        ensures { result ≡ value_of self }
    {
        match self {
            Truth::True => Value::Boolean(true),
            Truth::False => Value::Boolean(false),
            Truth::Unknown => Value::Null,
        }
    }
}

impl Copyable for Truth {
    fn copy(&self, _alloc: Global) -> Result<Truth, NoMemory> {
        Ok(*self)
    }
}
