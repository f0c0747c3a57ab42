ghost use Rattle.std.specs.Prelude.{◌≡◌, ◌++◌, List, Some, None, IfSome, IfNone, IsSome, OnOk, OnErr, MatchOption, length, count_by, unwrap_or};
ghost use Rattle.std.specs.FinMap as map;
ghost use Rattle.std.specs.Option.{option_copied};
ghost use Rattle.std.specs.Ordering.{nat_cmp};
ghost use Rattle.perm_values.specs.Marked.{unmarked};
ghost use Rattle.bag_algebra.specs.TableRows.{rows_in};

use perm_values::{List, NoMemory, Rows};
use std::alloc::Global;
use std::collections::BTreeMap;
use std::marker::Model;

/// The rows of each table by the table's identity: a finite map.
#[derive(Drop)]
pub struct Tables {
    rows: BTreeMap<u64, Rows>,
}

impl Model for Tables {
    ghost use Rattle.std.specs.Prelude.{List};
    ghost use Rattle.std.specs.FinMap.{FinMap, from_entries, code};
    ghost use Rattle.std.specs.Ordering.{nat_cmp};
    ghost use Rattle.perm_values.specs.declared.value.Value.{Value as Cell};
    ghost use Rattle.std.specs.Coded.{coded_ℕ, coded_list};
    ghost use Rattle.perm_values.specs.contracts.value.Value as cell;

    ghost Value = { FinMap nat_cmp (List (List Cell)) };

    ghost coded = { code coded_ℕ (coded_list (coded_list cell.the_row.coded)) };

    ghost view = { λ t. from_entries t.rows.entries };
}

impl Tables {
    /// No tables. It takes no memory.
    pub fn new(alloc: Global) -> Tables
        ensures { result ≡ map.empty }
    {
        Tables {
            rows: BTreeMap::new(alloc),
        }
    }

    /// The rows of that identity; `None` exactly where it isn't held.
    pub fn rows(&self, id: u64) -> Option<&Rows>
        ensures { option_copied result ≡ map.get self.now id }
    {
        self.rows.get(&id)
    }

    /// The rows take the place of earlier ones of that identity. It fails only for want of memory, and then nothing changes.
    pub fn put(&mut self, id: u64, rows: Rows) -> Result<(), NoMemory>
        ensures ok { OnOk result (self.new ≡ map.insert self.old id rows) }
        ensures err { OnErr result (self.new ≡ self.old) }
    {
        self.rows.insert(id, rows)?;
        Ok(())
    }

    /// Adds rows at the end of those of that identity, of which there may be none. It fails only for want of memory, and
    /// then nothing changes.
    pub fn add_rows(&mut self, id: u64, rows: Rows) -> Result<(), NoMemory>
        ensures ok { OnOk result (self.new ≡ map.insert self.old id (rows_in self.old id ++ rows)) }
        ensures err { OnErr result (self.new ≡ self.old) }
    {
        if self.rows(id).is_none() {
            return self.put(id, rows);
        }
        self.append_held(id, rows)
    }

    /// Adds rows at the end of those that are held.
    fn append_held(&mut self, id: u64, rows: Rows) -> Result<(), NoMemory>
        requires { IsSome (map.get self.old id) }
        ensures ok { OnOk result (self.new ≡ map.insert self.old id (rows_in self.old id ++ rows)) }
        ensures err { OnErr result (self.new ≡ self.old) }
    {
        match self.rows.get_mut(&id) {
            Some(held) => held.append(rows),
            None => Ok(()),
        }
    }

    /// Removes the flagged rows of that identity, and counts them. It takes no memory.
    pub fn drop_rows(&mut self, id: u64, doomed: &[bool]) -> u64
        requires held { IsSome (map.get self.old id) }
        requires flags { length doomed.now ≡ length (rows_in self.old id) }
        ensures kept { self.new ≡ map.insert self.old id (unmarked doomed.now (rows_in self.old id)) }
        ensures counted { result ≡ count_by (λ flag. flag) doomed.now }
    {
        match self.rows.get_mut(&id) {
            Some(held) => held.remove_marked(doomed),
            None => 0,
        }
    }

    /// Takes the identity out and gives its rows; `None` exactly where it isn't held. It takes no memory.
    pub fn remove(&mut self, id: u64) -> Option<Rows>
        ensures rows { result ≡ map.get self.old id }
        ensures removed { self.new ≡ map.remove self.old id }
    {
        self.rows.remove(&id)
    }
}
