ghost use Rattle.std.specs.Prelude.{◌≡◌, [], ◌∷◌, ◌<◌, ◌^◌, length, slice_get, Some, IfOk};

use perm_values::{Copyable, List, NoMemory, Row};
use std::alloc::Global;
use std::marker::Model;

/// The outer rows that a query sees, the nearest one first.
#[derive(Drop)]
pub struct Env {
    rows: List<Row>,
}

impl Model for Env {
    ghost use Rattle.std.specs.Prelude.{List};
    ghost use Rattle.perm_values.specs.declared.value.Value.{Value as Cell};

    ghost Value = { List (List Cell) };

    ghost view = { λ e. e.rows };
}

impl Copyable for Env {
    fn copy(&self, alloc: Global) -> Result<Env, NoMemory> {
        Ok(Env {
            rows: self.rows.copy(alloc)?,
        })
    }
}

impl Env {
    /// The environment without rows. It takes no memory.
    pub fn new(alloc: Global) -> Env
        ensures { result ≡ [] }
    {
        Env {
            rows: List::new(alloc),
        }
    }

    /// The same rows with `row` in front of them. It fails only for want of memory.
    pub fn pushed(&self, alloc: Global, row: &Row) -> Result<Env, NoMemory>
        ensures { IfOk result (λ env. env ≡ row.now ∷ self.now) }
    {
        let mut rows = List::new(alloc);
        rows.push(row.copy(alloc)?)?;
        rows.append(self.rows.copy(alloc)?)?;
        Ok(Env { rows })
    }

    /// The number of rows.
    pub fn len(&self) -> usize
        ensures value { result ≡ length self.now }
        ensures bound { result < 2 ^ 63 }
    {
        self.rows.len()
    }

    /// The row at a place, the nearest outer row at 0.
    pub fn get(&self, at: usize) -> &Row
        requires { at < length self.now }
        ensures { slice_get self.now at ≡ Some result.now }
    {
        self.rows.get(at)
    }
}
