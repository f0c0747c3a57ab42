//! What a subquery of FROM shows.
ghost use Rattle.std.specs.Prelude.{◌≡◌, IfOk};
ghost use Rattle.name_meaning.specs.Froms.{names_of, settled_columns};
ghost use Rattle.name_seen_parts.specs.Columns.{columns_of};

use name_seen_parts::ShownColumn;
use perm_values::{Chars, Copyable, List, NoMemory};
use std::alloc::Global;

/// The names of a query's columns, and the places of its provenance columns where it asks for provenance.
#[derive(Drop)]
pub struct ShownNames {
    pub names: List<Chars>,
    pub places: Option<List<usize>>,
}

/// The names of these columns.
pub fn column_names(alloc: Global, columns: &[ShownColumn]) -> Result<List<Chars>, NoMemory>
    ensures { IfOk result (λ names. names ≡ names_of (settled_columns (columns_of columns.now))) }
{
    let mut names = List::new(alloc);
    for column in columns {
        names.push(column.name.copy(alloc)?)?;
    }
    Ok(names)
}
