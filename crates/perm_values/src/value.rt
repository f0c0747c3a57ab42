ghost use Rattle.std.specs.Prelude.{◌≡◌, IfOk, Some, refl};
ghost use Rattle.std.specs.Cmp.{partial_equiv_from_equiv, partial_order_from_agreeing_total};
ghost use Rattle.std.specs.Hash.{same_Alike};
ghost use Rattle.perm_values.specs.Hashes.{hash_of_value};
ghost use Rattle.perm_values.specs.ValueLaws.{value_decides, same_value_equiv, value_cmp_total, value_ties};
ghost use Rattle.perm_values.specs.Values.{same_value, value_cmp, rank, fits};

use crate::{Chars, Copyable, Kind, NoMemory};
use std::alloc::Global;
use std::cmp::Ordering;
use std::hash::{Hash, Hasher};
use std::mem::size_of;

/// A value of SQL: NULL, a 64-bit integer, a text or a boolean.
#[derive(Drop)]
pub enum Value {
    Null,
    Integer(i64),
    Text(Chars),
    Boolean(bool),
}

// Tables hold little else, so a value stays small.
const _: () = prove!(size_of::<Value>() == 24);

impl Value {
    /// Whether the values are equal and of one kind, or both NULL (ISO/IEC 9075-2, 'IS NOT DISTINCT FROM').
    pub fn same(&self, other: &Value) -> bool
        ensures { result ≡ same_value self.now other.now }
    {
        match (self, other) {
            (Value::Null, Value::Null) => true,
            (Value::Integer(a), Value::Integer(b)) => *a == *b,
            (Value::Text(a), Value::Text(b)) => *a == *b,
            (Value::Boolean(a), Value::Boolean(b)) => *a == *b,
            _ => false,
        }
    }

    /// Whether a column of the kind may hold the value, as NULL and the values of the kind may.
    pub fn fits(&self, kind: Kind) -> bool
        ensures { result ≡ fits self.now kind }
    {
        match self {
            Value::Null => true,
            Value::Integer(_) => kind == Kind::Integer,
            Value::Text(_) => kind == Kind::Text,
            Value::Boolean(_) => kind == Kind::Boolean,
        }
    }

    fn rank(&self) -> u8
        ensures { result ≡ rank self.now }
    {
        match self {
            Value::Integer(_) => 0,
            Value::Text(_) => 1,
            Value::Boolean(_) => 2,
            Value::Null => 3,
        }
    }

    /// The total order: integers by value, then texts by their bytes, then false and true, then NULL.
    pub fn order(&self, other: &Value) -> Ordering
        ensures { result ≡ value_cmp self.now other.now }
    {
        match (self, other) {
            (Value::Integer(a), Value::Integer(b)) => a.cmp(b),
            (Value::Text(a), Value::Text(b)) => a.bytes().cmp(&b.bytes()),
            (Value::Boolean(a), Value::Boolean(b)) => a.cmp(b),
            _ => self.rank().cmp(&other.rank()),
        }
    }
}

impl Copyable for Value {
    fn copy(&self, alloc: Global) -> Result<Value, NoMemory> {
        match self {
            Value::Null => Ok(Value::Null),
            Value::Integer(number) => Ok(Value::Integer(*number)),
            Value::Text(text) => Ok(Value::Text(text.copy(alloc)?)),
            Value::Boolean(truth) => Ok(Value::Boolean(*truth)),
        }
    }
}

impl PartialEq for Value {
    ghost eq = { same_value };

    ghost laws = { partial_equiv_from_equiv same_value_equiv };

    fn eq(&self, other: &Value) -> bool {
        self.same(other)
    }
}

impl Eq for Value {
    ghost laws = { same_value_equiv };
}

impl PartialOrd for Value {
    ghost partial_cmp = { λ x y. Some (value_cmp x y) };

    ghost laws = { partial_order_from_agreeing_total value_cmp value_cmp_total (λ x y. refl) value_ties };

    fn partial_cmp(&self, other: &Value) -> Option<Ordering> {
        Some(self.order(other))
    }
}

impl Ord for Value {
    ghost cmp = { value_cmp };

    ghost total = { value_cmp_total };

    ghost matches_partial_cmp = { λ x y. refl };

    ghost matches_eq = { value_ties };

    fn cmp(&self, other: &Value) -> Ordering {
        self.order(other)
    }
}

impl Hash for Value {
    ghost hash_input = { hash_of_value };

    ghost respects_eq = { (same_Alike hash_of_value value_decides).fed };

    fn hash<H: Hasher>(&self, state: &mut H) {
        self.rank().hash(state);
        match self {
            Value::Null => {}
            Value::Integer(number) => number.hash(state),
            Value::Text(text) => text.hash(state),
            Value::Boolean(truth) => truth.hash(state),
        }
    }
}
