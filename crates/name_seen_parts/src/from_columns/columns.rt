//! The names, kinds and places of columns.
ghost use Rattle.std.specs.Prelude.{◌≡◌, IfOk};
ghost use Rattle.name_meaning.specs.Froms.{named_columns, settled_columns, table_columns};
ghost use Rattle.perm_catalog.specs.Columns.{column_kinds};
ghost use Rattle.name_seen_parts.specs.Columns.{columns_of};
ghost use Rattle.name_seen_parts.specs.FromColumns.{known_names};

use crate::clauses::ShownColumn;
use name_meaning::settled;
use perm_catalog::Column;
use perm_values::{Chars, Copyable, Kind, List, NoMemory};
use std::alloc::Global;

/// The kinds of these columns.
pub fn kinds_of_columns(alloc: Global, columns: &[Column]) -> Result<List<Kind>, NoMemory>
    ensures { IfOk result (λ kinds. kinds ≡ column_kinds columns.now) }
{
    let mut kinds = List::new(alloc);
    for column in columns {
        kinds.push(column.kind)?;
    }
    Ok(kinds)
}

/// The names of these columns.
pub fn names_of(alloc: Global, columns: &[Column]) -> Result<List<Chars>, NoMemory>
    ensures { IfOk result (λ names. names ≡ known_names columns.now) }
{
    let mut names = List::new(alloc);
    for column in columns {
        names.push(column.name.copy(alloc)?)?;
    }
    Ok(names)
}

/// The columns of these names and kinds, as many as there are of both.
pub fn named_columns(
    alloc: Global,
    names: &[Chars],
    kinds: &[Kind],
) -> Result<List<Column>, NoMemory>
    ensures { IfOk result (λ columns. table_columns columns ≡ named_columns names.now kinds.now) }
{
    let mut columns = List::new(alloc);
    for at in 0..names.len().min(kinds.len()) {
        columns.push(Column {
            name: names[at].copy(alloc)?,
            kind: kinds[at],
        })?;
    }
    Ok(columns)
}

/// The columns, where those of any kind are Text.
pub fn settled_columns(alloc: Global, columns: &[ShownColumn]) -> Result<List<Column>, NoMemory>
    ensures { IfOk result (λ settled. table_columns settled ≡ settled_columns (columns_of columns.now)) }
{
    let mut found = List::new(alloc);
    for column in columns {
        found.push(Column {
            name: column.name.copy(alloc)?,
            kind: settled(column.kind, Kind::Text),
        })?;
    }
    Ok(found)
}
