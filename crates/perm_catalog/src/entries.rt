ghost use Rattle.std.specs.Prelude.{◌≡◌, IfOk};

use crate::column::Column;
use bag_algebra::{Answer, Query};
use perm_values::{Chars, Copyable, List, NoMemory, both, three};
use std::alloc::Global;

/// A table that a stored provenance query read: its name, identity and version then.
#[derive(Drop)]
pub struct SourceVersion {
    pub table: Chars,
    pub id: u64,
    pub version: u64,
}

/// What a stored provenance table remembers: the places of its provenance columns, its query, and what that read.
#[derive(Drop)]
pub struct StoredQuery {
    pub places: List<usize>,
    pub query: Query,
    pub kept: List<SourceVersion>,
}

/// A table: its identity, which no other table has, the version of its rows, its columns, and what it remembers where
/// it stores provenance.
#[derive(Drop)]
pub struct TableEntry {
    pub id: u64,
    pub version: u64,
    pub columns: List<Column>,
    pub stored: Option<StoredQuery>,
}

/// A view as it was resolved: its answer, the places of its provenance columns where it has any, and the names of the
/// tables and views that it names, each once in ascending order.
#[derive(Drop)]
pub struct ViewEntry {
    pub answer: Answer,
    pub places: Option<List<usize>>,
    pub names_used: List<Chars>,
}

impl ViewEntry {
    ghost use Rattle.std.specs.Prelude.{◌≡◌};
    ghost use Rattle.perm_catalog.specs.Lookups.{uses_name};

    /// Whether the view names this table or view, directly or through other views.
    pub(crate) fn uses(&self, name: &Chars) -> bool
        ensures { result ≡ uses_name self.now name.now }
    {
        self.names_used.as_slice().iter().any(|used| used == name)
    }
}

impl Copyable for SourceVersion {
    fn copy(&self, alloc: Global) -> Result<SourceVersion, NoMemory> {
        Ok(SourceVersion {
            table: self.table.copy(alloc)?,
            id: self.id,
            version: self.version,
        })
    }
}

impl Copyable for StoredQuery {
    fn copy(&self, alloc: Global) -> Result<StoredQuery, NoMemory> {
        let places = self.places.copy(alloc);
        let query = self.query.copy(alloc);
        let kept = self.kept.copy(alloc);
        let (places, query, kept) = three(places, query, kept)?;
        Ok(StoredQuery {
            places,
            query,
            kept,
        })
    }
}

impl Copyable for TableEntry {
    fn copy(&self, alloc: Global) -> Result<TableEntry, NoMemory> {
        let columns = self.columns.copy(alloc);
        let stored = self.stored.copy(alloc);
        let (columns, stored) = both(columns, stored)?;
        Ok(TableEntry {
            id: self.id,
            version: self.version,
            columns,
            stored,
        })
    }
}

impl Copyable for ViewEntry {
    fn copy(&self, alloc: Global) -> Result<ViewEntry, NoMemory> {
        let answer = self.answer.copy(alloc);
        let places = self.places.copy(alloc);
        let names_used = self.names_used.copy(alloc);
        let (answer, places, names_used) = three(answer, places, names_used)?;
        Ok(ViewEntry {
            answer,
            places,
            names_used,
        })
    }
}
