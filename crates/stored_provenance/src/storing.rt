//! Tables that store provenance, made.
ghost use Rattle.std.specs.Prelude.{◌≡◌, ◌↔◌, IsTrue, OnOk, OnErr, IsErrOf, Some};
ghost use Rattle.perm_values.specs.Numbers.{last_number};
ghost use Rattle.perm_catalog.specs.Changes.{is_free, with_table};
ghost use Rattle.perm_catalog.specs.Stored.{stored_of};
ghost use Rattle.perm_catalog.specs.declared.catalog.CatalogRefusal.{CatalogRefusal};

use crate::kept::kept_of;
use bag_algebra::Query;
use perm_catalog::{Catalog, CatalogRefusal, Column, StoredQuery};
use perm_values::{Chars, List, NoMemory, Rows};
use std::alloc::Global;

/// Adds a table that stores what a query gives: as `Catalog::create` does, and the table remembers these
/// places, the query, and the tables that it reads as they stand now. `VersionsSpent` comes exactly where no
/// number is left to draw. After a refusal nothing has changed.
pub fn store(
    alloc: Global,
    catalog: &mut Catalog,
    name: &Chars,
    columns: List<Column>,
    query: Query,
    rows: Rows,
    places: List<usize>,
) -> Result<(), CatalogRefusal>
    requires { IsTrue (is_free catalog.old name.now) }
    ensures ok { OnOk result (catalog.new ≡ with_table catalog.old name.now columns rows
        (Some (stored_of catalog.old query places))) }
    ensures spent { IsErrOf result CatalogRefusal.VersionsSpent ↔ (catalog.old.next ≡ last_number) }
    ensures err { OnErr result (catalog.new ≡ catalog.old) }
{
    if catalog.is_spent() {
        let_go(columns, query, rows, places);
        return Err(CatalogRefusal::VersionsSpent);
    }
    match kept_of(alloc, catalog, &query) {
        Ok(kept) => {
            let stored = StoredQuery {
                places,
                query,
                kept,
            };
            catalog.create(alloc, name, columns, rows, Some(stored))
        }
        Err(NoMemory) => {
            let_go(columns, query, rows, places);
            Err(CatalogRefusal::NoMemory)
        }
    }
}

fn let_go(columns: List<Column>, query: Query, rows: Rows, places: List<usize>) {
    drop(columns);
    drop(query);
    drop(rows);
    drop(places);
}
