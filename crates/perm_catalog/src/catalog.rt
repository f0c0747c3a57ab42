ghost use Rattle.std.specs.Prelude.{◌≡◌, ◌<◌, ◌↔◌, OnOk, OnErr, IsErrOf, IsTrue, true, None, is_some, IsSome, IfSome, IfOk, length, count_by};
ghost use Rattle.std.specs.Option.{option_copied};
ghost use Rattle.perm_values.specs.Numbers.{last_number};
ghost use Rattle.perm_catalog.specs.Lookups.{declared_places, first_user, name_of_id, version_of_id};
ghost use Rattle.perm_catalog.specs.Changes.{table_named, view_named, is_free, with_table, with_entry, with_more_rows, with_more_rows_undrawn, nothing_held, rows_at, with_fewer_rows, with_fewer_rows_undrawn, with_view, without_table, without_view};

use crate::column::Column;
use crate::drop_held::drop_held;
use crate::entries::{StoredQuery, TableEntry, ViewEntry};
use crate::last::{add_last, room_for};
use crate::renew::renew;
use bag_algebra::Tables;
use indexmap::IndexMap;
use perm_values::{Chars, Copyable, List, NoMemory, Rows};
use std::alloc::Global;
use std::marker::Model;

/// Why the catalog refuses a change.
#[derive(Clone, Copy, PartialEq, Eq)]
pub enum CatalogRefusal {
    /// The next number is the last one, which is never drawn.
    VersionsSpent,
    NoMemory,
}

impl From<NoMemory> for CatalogRefusal {
    ghost use Rattle.std.specs.Prelude.{◌≡◌};
    ghost use Rattle.perm_catalog.specs.declared.catalog.CatalogRefusal.TheVariants.{NoMemory as OutOfMemory};

    ghost from_gives = { λ _ refusal. refusal ≡ OutOfMemory };

    fn from(_error: NoMemory) -> CatalogRefusal {
        CatalogRefusal::NoMemory
    }
}

/// The tables and views by name in the order of their creation, the rows of tables by identity, and the next number
/// to be drawn as an identity or a version.
#[derive(Drop)]
pub struct Catalog {
    tables: IndexMap<Chars, TableEntry>,
    views: IndexMap<Chars, ViewEntry>,
    rows: Tables,
    next: u64,
}

impl Model for Catalog {
    ghost use Rattle.perm_catalog.specs.Contents.{Contents, contents_code};
    ghost use Rattle.perm_catalog.specs.contracts.entries.TableEntry as table;
    ghost use Rattle.perm_catalog.specs.contracts.entries.ViewEntry as view_entry;
    ghost use Rattle.perm_values.specs.contracts.value.Value as cell;

    ghost Value = { Contents };

    ghost coded = { contents_code table.the_row.coded view_entry.the_row.coded cell.the_row.coded };

    ghost view = { λ c. record {
      tables = c.tables.entries;
      views = c.views.entries;
      rows = c.rows;
      next = c.next;
    } };
}

impl Catalog {
    /// No tables and no views, with the next number to draw. It takes no memory.
    pub fn new(alloc: Global, next: u64) -> Catalog
        ensures { result ≡ nothing_held next }
    {
        Catalog {
            tables: IndexMap::new(alloc),
            views: IndexMap::new(alloc),
            rows: Tables::new(alloc),
            next,
        }
    }

    /// The table of that name; `None` exactly where none is held.
    pub fn table(&self, name: &Chars) -> Option<&TableEntry>
        ensures { option_copied result ≡ table_named self.now name.now }
    {
        self.tables.get(name)
    }

    /// The view of that name; `None` exactly where none is held.
    pub fn view(&self, name: &Chars) -> Option<&ViewEntry>
        ensures { option_copied result ≡ view_named self.now name.now }
    {
        self.views.get(name)
    }

    /// The rows of all tables by their identities.
    pub fn tables(&self) -> &Tables
        ensures { result.now ≡ self.now.rows }
    {
        &self.rows
    }

    /// The places of the provenance columns that a table stores; `None` exactly where no table of that name
    /// stores any.
    pub fn declared(&self, name: &Chars) -> Option<&[usize]>
        ensures { option_copied result ≡ declared_places self.now name.now }
    {
        match &self.tables.get(name)?.stored {
            Some(stored) => Some(stored.places.as_slice()),
            None => None,
        }
    }

    /// The first view, in the order of creation, that names it; `None` exactly where no view does.
    pub fn user_of(&self, name: &Chars) -> Option<&Chars>
        ensures { option_copied result ≡ first_user self.now name.now }
    {
        for (view, entry) in self.views.iter() {
            if entry.uses(name) {
                return Some(view);
            }
        }
        None
    }

    /// The name of the table that has this identity; `None` exactly where none has it.
    pub fn name_of(&self, id: u64) -> Option<&Chars>
        ensures { option_copied result ≡ name_of_id self.now id }
    {
        for (name, entry) in self.tables.iter() {
            if entry.id == id {
                return Some(name);
            }
        }
        None
    }

    /// The version of the table that has this identity; `None` exactly where none has it.
    pub fn version_of(&self, id: u64) -> Option<u64>
        ensures { result ≡ version_of_id self.now id }
    {
        for (_, entry) in self.tables.iter() {
            if entry.id == id {
                return Some(entry.version);
            }
        }
        None
    }

    /// Whether no number is left to draw: the next one is the last, which is never drawn.
    pub fn is_spent(&self) -> bool
        ensures { IsTrue result ↔ (self.now.next ≡ last_number) }
    {
        self.next == u64::MAX
    }

    /// Adds a table, last in the order of creation: the next number is drawn as its identity and its version.
    /// `VersionsSpent` comes exactly where that number is the last one. After a refusal nothing has changed.
    pub fn create(
        &mut self,
        alloc: Global,
        name: &Chars,
        columns: List<Column>,
        rows: Rows,
        stored: Option<StoredQuery>,
    ) -> Result<(), CatalogRefusal>
        requires { IsTrue (is_free self.old name.now) }
        ensures ok { OnOk result (self.new ≡ with_table self.old name.now columns rows stored) }
        ensures spent { IsErrOf result CatalogRefusal.VersionsSpent ↔ (self.old.next ≡ last_number) }
        ensures err { OnErr result (self.new ≡ self.old) }
    {
        if self.is_spent() {
            drop(columns);
            drop(rows);
            drop(stored);
            return Err(CatalogRefusal::VersionsSpent);
        }
        let entry = TableEntry {
            id: self.next,
            version: self.next,
            columns,
            stored,
        };
        self.add_table(alloc, name, entry, rows)?;
        self.next += 1;
        Ok(())
    }

    /// Adds a table with its rows, and draws no number.
    fn add_table(
        &mut self,
        alloc: Global,
        name: &Chars,
        entry: TableEntry,
        rows: Rows,
    ) -> Result<(), NoMemory>
        requires { IsTrue (is_free self.old name.now) }
        ensures ok { OnOk result (self.new ≡ with_entry self.old name.now entry rows) }
        ensures err { OnErr result (self.new ≡ self.old) }
    {
        let Ok(key) = room_for(alloc, &mut self.tables, name) else {
            drop(rows);
            drop(entry);
            return Err(NoMemory);
        };
        let Ok(_) = self.rows.put(entry.id, rows) else {
            drop(key);
            drop(entry);
            return Err(NoMemory);
        };
        add_last(&mut self.tables, key, entry);
        Ok(())
    }

    /// Adds rows at the end of a table, which gets the next number as its version and stores no provenance from then on.
    /// `VersionsSpent` comes exactly where that number is the last one. After a refusal nothing has changed.
    pub fn insert_rows(&mut self, name: &Chars, rows: Rows) -> Result<(), CatalogRefusal>
        requires { IsSome (table_named self.old name.now) }
        ensures ok { OnOk result (IfSome (table_named self.old name.now) (λ entry.
            self.new ≡ with_more_rows self.old name.now entry.id rows)) }
        ensures spent { IsErrOf result CatalogRefusal.VersionsSpent ↔ (self.old.next ≡ last_number) }
        ensures err { OnErr result (self.new ≡ self.old) }
    {
        if self.is_spent() {
            drop(rows);
            return Err(CatalogRefusal::VersionsSpent);
        }
        self.add_to_table(name, rows)?;
        self.next += 1;
        Ok(())
    }

    /// Adds rows to a table and gives it the next number as its version, which isn't drawn.
    fn add_to_table(&mut self, name: &Chars, rows: Rows) -> Result<(), NoMemory>
        requires { IsSome (table_named self.old name.now) }
        ensures ok { OnOk result (IfSome (table_named self.old name.now) (λ entry.
            self.new ≡ with_more_rows_undrawn self.old name.now entry.id rows)) }
        ensures err { OnErr result (self.new ≡ self.old) }
    {
        let Some(entry) = self.tables.get(name) else {
            drop(rows);
            return Ok(());
        };
        self.rows.add_rows(entry.id, rows)?;
        renew(&mut self.tables, name, self.next);
        Ok(())
    }

    /// Removes the flagged rows of a table and counts them. The table gets the next number as its version, also where no
    /// row went, and stores no provenance from then on. It takes no memory. `VersionsSpent` comes exactly where that
    /// number is the last one, and then nothing has changed.
    pub fn delete_rows(&mut self, name: &Chars, doomed: &[bool]) -> Result<u64, CatalogRefusal>
        requires table { IsSome (table_named self.old name.now) }
        requires flags { IfSome (table_named self.old name.now) (λ entry.
            length doomed.now ≡ length (rows_at self.old entry.id)) }
        ensures ok { OnOk result (IfSome (table_named self.old name.now) (λ entry.
            self.new ≡ with_fewer_rows self.old name.now entry.id doomed.now)) }
        ensures counted { IfOk result (λ removed. removed ≡ count_by (λ flag. flag) doomed.now) }
        ensures spent { IsErrOf result CatalogRefusal.VersionsSpent ↔ (self.old.next ≡ last_number) }
        ensures err { OnErr result ((result ≡ Err CatalogRefusal.VersionsSpent) × (self.new ≡ self.old)) }
    {
        if self.is_spent() {
            return Err(CatalogRefusal::VersionsSpent);
        }
        let removed = self.drop_from_table(name, doomed);
        self.next += 1;
        Ok(removed)
    }

    /// Removes flagged rows of a table and gives it the next number as its version, which isn't drawn.
    fn drop_from_table(&mut self, name: &Chars, doomed: &[bool]) -> u64
        requires table { IsSome (table_named self.old name.now) }
        requires flags { IfSome (table_named self.old name.now) (λ entry.
            length doomed.now ≡ length (rows_at self.old entry.id)) }
        ensures fewer { IfSome (table_named self.old name.now) (λ entry.
            self.new ≡ with_fewer_rows_undrawn self.old name.now entry.id doomed.now) }
        ensures counted { result ≡ count_by (λ flag. flag) doomed.now }
    {
        let Some(entry) = self.tables.get(name) else {
            return 0;
        };
        let removed = drop_held(&mut self.rows, entry.id, doomed);
        renew(&mut self.tables, name, self.next);
        removed
    }

    /// Adds a view, last in the order of creation. It fails only for want of memory, and then nothing has changed.
    pub fn add_view(
        &mut self,
        alloc: Global,
        name: &Chars,
        entry: ViewEntry,
    ) -> Result<(), NoMemory>
        requires { IsTrue (is_free self.old name.now) }
        ensures ok { OnOk result (self.new ≡ with_view self.old name.now entry) }
        ensures err { OnErr result (self.new ≡ self.old) }
    {
        let Ok(key) = room_for(alloc, &mut self.views, name) else {
            drop(entry);
            return Err(NoMemory);
        };
        add_last(&mut self.views, key, entry);
        Ok(())
    }

    /// Takes a table that no view names out, with its rows. It takes no memory.
    pub fn drop_table(&mut self, name: &Chars)
        requires held { IsSome (table_named self.old name.now) }
        requires unused { first_user self.old name.now ≡ None }
        ensures dropped { IfSome (table_named self.old name.now) (λ entry.
            self.new ≡ without_table self.old name.now entry.id) }
        ensures gone { table_named self.new name.now ≡ None }
    {
        if let Some(entry) = self.tables.get(name) {
            drop(self.rows.remove(entry.id));
        }
        drop(self.tables.shift_remove(name));
    }

    /// Takes a view that no view names out. It takes no memory.
    pub fn drop_view(&mut self, name: &Chars)
        requires held { IsSome (view_named self.old name.now) }
        requires unused { first_user self.old name.now ≡ None }
        ensures dropped { self.new ≡ without_view self.old name.now }
        ensures gone { view_named self.new name.now ≡ None }
    {
        drop(self.views.shift_remove(name));
    }
}
