ghost use Rattle.std.specs.Prelude.{◌≡◌, [], ◌∷◌, ◌++◌, ◌<◌, ◌^◌, length, slice_get, Some, IfOk, OnOk, OnErr};
ghost use Rattle.std.specs.Cmp.{decided, partial_equiv_from_equiv, partial_order_from_agreeing_total};
ghost use Rattle.std.specs.Cmp.Lexicographic.{lists_total, lists_ties};
ghost use Rattle.std.specs.Hash as fed;
ghost use Rattle.std.specs.Hash.{same_Alike};
ghost use Rattle.std.specs.Prelude.{refl};
ghost use Rattle.perm_values.specs.Hashes.{hash_of_value};
ghost use Rattle.perm_values.specs.Rows.{same_row, row_cmp, key_cmp, printed_cmp, picked, PlacesWithin, KeysWithin};
ghost use Rattle.perm_values.specs.ValueLaws.{row_decides, value_cmp_total, value_ties};
ghost use Rattle.perm_values.specs.Values.{value_cmp};

use crate::copyable::add_copies;
use crate::room::push_tightly;
use crate::{Copyable, Key, List, NoMemory, Value};
use std::alloc::Global;
use std::cmp::Ordering;
use std::hash::{Hash, Hasher};
use std::marker::Model;

/// A row, seen as its list of values.
#[derive(Drop)]
pub struct Row {
    values: Vec<Value>,
}

/// Rows in a list, which stand for a bag where their order doesn't count.
pub type Rows = List<Row>;

impl Model for Row {
    ghost use Rattle.std.specs.Prelude.{List};
    ghost use Rattle.perm_values.specs.declared.value.Value.{Value as Cell};

    ghost Value = { List Cell };

    ghost view = { λ r. r.values.items };
}

impl Row {
    /// The row without columns. It takes no memory.
    pub fn new(alloc: Global) -> Row
        ensures { result ≡ [] }
    {
        Row {
            values: Vec::new(alloc),
        }
    }

    /// The row without columns, with room for as many values. It fails only for want of memory.
    pub fn with_room(alloc: Global, room: usize) -> Result<Row, NoMemory>
        ensures { IfOk result (λ row. row ≡ []) }
    {
        Ok(Row {
            values: Vec::with_capacity(alloc, room)?,
        })
    }

    /// Adds a value at the right. It fails only for want of memory, and then the row is as before.
    pub fn push(&mut self, value: Value) -> Result<(), NoMemory>
        ensures ok { OnOk result (self.new ≡ self.old ++ value ∷ []) }
        ensures err { OnErr result (self.new ≡ self.old) }
    {
        push_tightly(&mut self.values, value)
    }

    /// The number of values.
    pub fn len(&self) -> usize
        ensures value { result ≡ length self.now }
        ensures bound { result < 2 ^ 63 }
    {
        self.values.len()
    }

    /// The value at a place, counted from 0.
    pub fn get(&self, place: usize) -> &Value
        requires { place < length self.now }
        ensures { slice_get self.now place ≡ Some result.now }
    {
        &self.values[place]
    }

    /// The values from left to right.
    pub fn as_slice(&self) -> &[Value]
        ensures { result.now ≡ self.now }
    {
        self.values.as_slice()
    }

    /// The total order of rows: from left to right; a proper prefix comes first.
    pub fn order(&self, other: &Row) -> Ordering
        ensures { result ≡ row_cmp self.now other.now }
    {
        self.values.as_slice().cmp(&other.values.as_slice())
    }

    /// The order that one key asks for; a place out of range reads NULL.
    fn order_at(&self, key: Key, other: &Row) -> Ordering
        ensures { result ≡ key_cmp key self.now other.now }
    {
        let order = match (self.values.get(key.place), other.values.get(key.place)) {
            (Some(left), Some(right)) => left.order(right),
            (Some(left), None) => left.order(&Value::Null),
            (None, Some(right)) => Value::Null.order(right),
            (None, None) => Ordering::Equal,
        };
        if key.descending {
            order.reverse()
        } else {
            order
        }
    }

    /// The printed order: by the keys one after another, then by all columns ascending. A key's place out of range reads
    /// NULL.
    pub fn order_by(&self, keys: &[Key], other: &Row) -> Ordering
        ensures { result ≡ printed_cmp keys.now self.now other.now }
    {
        for key in keys {
            let order = self.order_at(*key, other);
            if order != Ordering::Equal {
                return order;
            }
        }
        self.order(other)
    }

    /// The values of this row, then those of the other. It fails only for want of memory.
    pub fn joined(&self, other: &Row) -> Result<Row, NoMemory>
        ensures { IfOk result (λ row. row ≡ self.now ++ other.now) }
    {
        let alloc = *self.values.allocator();
        let mut values = Vec::with_capacity(alloc, self.len() + other.len())?;
        add_copies(alloc, &mut values, self.values.as_slice())?;
        add_copies(alloc, &mut values, other.values.as_slice())?;
        Ok(Row { values })
    }

    /// The values at the places, in their order. It fails only for want of memory.
    pub fn picked(&self, places: &[usize]) -> Result<Row, NoMemory>
        requires { PlacesWithin (length self.now) places.now }
        ensures { IfOk result (λ row. row ≡ picked places.now self.now) }
    {
        let alloc = *self.values.allocator();
        let mut values = Vec::with_capacity(alloc, places.len())?;
        for place in places {
            values.push(self.values[*place].copy(alloc)?)?;
        }
        Ok(Row { values })
    }
}

impl Copyable for Row {
    fn copy(&self, alloc: Global) -> Result<Row, NoMemory> {
        let mut values = Vec::with_capacity(alloc, self.len())?;
        add_copies(alloc, &mut values, self.values.as_slice())?;
        Ok(Row { values })
    }
}

impl PartialEq for Row {
    ghost eq = { same_row };

    ghost laws = { partial_equiv_from_equiv (decided same_row row_decides) };

    fn eq(&self, other: &Row) -> bool {
        self.values.as_slice() == other.values.as_slice()
    }
}

impl Eq for Row {
    ghost laws = { decided same_row row_decides };
}

impl PartialOrd for Row {
    ghost partial_cmp = { λ u v. Some (row_cmp u v) };

    ghost laws = { partial_order_from_agreeing_total row_cmp (lists_total value_cmp_total)
        (λ u v. refl) (lists_ties value_cmp value_ties) };

    fn partial_cmp(&self, other: &Row) -> Option<Ordering> {
        Some(self.order(other))
    }
}

impl Ord for Row {
    ghost cmp = { row_cmp };

    ghost total = { lists_total value_cmp_total };

    ghost matches_partial_cmp = { λ u v. refl };

    ghost matches_eq = { lists_ties value_cmp value_ties };

    fn cmp(&self, other: &Row) -> Ordering {
        self.order(other)
    }
}

impl Hash for Row {
    ghost hash_input = { fed.slice hash_of_value };

    ghost respects_eq = { (same_Alike (fed.slice hash_of_value) row_decides).fed };

    fn hash<H: Hasher>(&self, state: &mut H) {
        self.values.as_slice().hash(state);
    }
}
