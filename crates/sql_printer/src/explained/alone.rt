//! Tables of a catalog, where nothing else is.
ghost use Rattle.std.specs.Prelude.{IfOk, OnOk};
ghost use Rattle.perm_catalog.specs.Sound.{IsSound};
ghost use Rattle.sql_printer.specs.explained.Alone.{IsAlone};

use perm_catalog::{Catalog, CatalogRefusal};
use perm_values::{Chars, Copyable, List, NoMemory};
use query_texts::TableNames;
use std::alloc::Global;

/// The catalog's tables of these names, without their rows, and no view. It fails only for want of memory.
pub(crate) fn tables_alone(
    alloc: Global,
    catalog: &Catalog,
    tables: &[TableNames],
) -> Result<Catalog, NoMemory>
    requires { IsSound catalog.now }
    ensures { IfOk result (λ alone. IsAlone catalog.now alone) }
{
    let mut alone = Catalog::new(alloc, 0);
    'tables: for table in tables {
        add_table(alloc, catalog, &table.name, &mut alone)?;
    }
    Ok(alone)
}

/// Adds the catalog's table of this name, without its rows, where it isn't there yet.
fn add_table(
    alloc: Global,
    catalog: &Catalog,
    name: &Chars,
    alone: &mut Catalog,
) -> Result<(), NoMemory>
    requires sound { IsSound catalog.now }
    requires alone { IsAlone catalog.now alone.old }
    ensures { OnOk result (IsAlone catalog.now alone.new) }
{
    if alone.table(name).is_some() {
        return Ok(());
    }
    let Some(entry) = catalog.table(name) else {
        return Ok(());
    };
    let columns = entry.columns.copy(alloc)?;
    match alone.create(alloc, name, columns, List::new(alloc), None) {
        Ok(()) => Ok(()),
        Err(CatalogRefusal::NoMemory) => Err(NoMemory),
        // Where no number is left the table isn't there, and no text is read that names it.
        Err(CatalogRefusal::VersionsSpent) => Ok(()),
    }
}
