//! Classes of rows with the same group values, in the order of their first rows.
ghost use Rattle.std.specs.Prelude.{◌≡◌, IfOk, [], ◌∷◌};
ghost use Rattle.bag_algebra.specs.Means.{class_keys};
ghost use Rattle.row_values.specs.Groups.{IsClassed};

use crate::expression::values_at;
use indexmap::IndexSet;
use perm_values::{List, NoMemory, Row};
use std::alloc::Global;

/// The group values of each class, and for each row the number of its class.
#[derive(Drop)]
pub(crate) struct Classes {
    pub keys: IndexSet<Row>,
    pub numbers: List<usize>,
}

/// The classes of the rows; without groups one, also of no row.
pub(crate) fn classes_of(alloc: Global, rows: &[Row], groups: &[usize]) -> Result<Classes, NoMemory>
    ensures { IfOk result (λ classes. IsClassed groups.now rows.now classes.keys.keys classes.numbers) }
{
    let mut keys = keys_of_no_row(alloc, groups)?;
    let mut numbers = List::with_room(alloc, rows.len())?;
    for row in rows {
        let key = values_at(alloc, row, groups)?;
        let (number, _is_new) = keys.insert_full(key)?;
        numbers.push(number)?;
    }
    Ok(Classes { keys, numbers })
}

fn keys_of_no_row(alloc: Global, groups: &[usize]) -> Result<IndexSet<Row>, NoMemory>
    ensures { IfOk result (λ set. set.keys ≡ class_keys groups.now []) }
{
    let mut keys = IndexSet::new(alloc);
    if groups.is_empty() {
        keys.insert(Row::new(alloc))?;
    }
    Ok(keys)
}
