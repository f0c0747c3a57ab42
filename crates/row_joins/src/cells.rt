//! Whether a value is among the first columns of rows.
ghost use Rattle.std.specs.Prelude.{◌≡◌, ◌&&◌, ◌||◌, [], ◌∷◌, IfOk};
ghost use Rattle.std.specs.List.{list_any};
ghost use Rattle.perm_values.specs.Values.{is_null};
ghost use Rattle.null_logic.specs.declared.compare.Compare.TheVariants.{Equal};
ghost use Rattle.bag_algebra.specs.Bags.{Bag};
ghost use Rattle.bag_algebra.specs.Means.{some_of, comparisons, cell};
ghost use Rattle.row_joins.specs.Cells.{AreCells, first_pair, truth_from};

use crate::keys::{Side, key_of};
use crate::pairs::ColumnPair;
use crate::table::{agreeing_places, is_some_place, key_table};
use indexmap::IndexMap;
use null_logic::Truth;
use perm_values::{Copyable, List, NoMemory, Row, Value};
use row_values::is_null;
use std::alloc::Global;

/// The first columns of rows, in a table.
#[derive(Drop)]
pub struct Cells {
    columns: List<ColumnPair>,
    table: IndexMap<Row, List<usize>>,
    some_null: bool,
    some_row: bool,
}

impl Cells {
    /// The first columns of these rows. It fails only for want of memory.
    pub fn new(alloc: Global, rows: &[Row]) -> Result<Cells, NoMemory>
        ensures { IfOk result (λ cells. AreCells cells rows.now) }
    {
        let columns = first_columns(alloc)?;
        let table = key_table(alloc, columns.as_slice(), rows)?;
        Ok(Cells {
            columns,
            table,
            some_null: has_null(rows),
            some_row: !rows.is_empty(),
        })
    }

    /// Whether the value equals one of them: unknown where it equals none that is known, and it or one of them is NULL. It
    /// fails only for want of memory.
    pub fn equals_some(&self, alloc: Global, tested: &Value) -> Result<Truth, NoMemory>
        ensures { (rows : Bag) → AreCells self.now rows
            → IfOk result (λ truth. truth ≡ some_of (comparisons Equal tested.now rows)) }
    {
        let row = row_of_one(alloc, tested)?;
        let key = key_of(alloc, Side::Left, self.columns.as_slice(), &row)?;
        let found = is_some_place(agreeing_places(&self.table, &key));
        let unknown = is_unknown(self.some_null, self.some_row, is_null(tested));
        Ok(truth_of(found, unknown))
    }
}

/// The pair of the first columns of both sides.
fn first_columns(alloc: Global) -> Result<List<ColumnPair>, NoMemory>
    ensures { IfOk result (λ columns. columns ≡ first_pair ∷ []) }
{
    let mut columns = List::new(alloc);
    columns.push(ColumnPair {
        left: 0,
        right: 0,
        nulls_agree: false,
    })?;
    Ok(columns)
}

fn row_of_one(alloc: Global, value: &Value) -> Result<Row, NoMemory>
    ensures { IfOk result (λ row. row ≡ value.now ∷ []) }
{
    let mut row = Row::with_room(alloc, 1)?;
    row.push(value.copy(alloc)?)?;
    Ok(row)
}

/// Whether the first column of some row is NULL.
fn has_null(rows: &[Row]) -> bool
    ensures { result ≡ list_any (λ v. is_null (cell v)) rows.now }
{
    for row in rows {
        if begins_with_null(row) {
            return true;
        }
    }
    false
}

fn begins_with_null(row: &Row) -> bool
    ensures { result ≡ is_null (cell row.now) }
{
    match row.as_slice() {
        [value, ..] => is_null(value),
        [] => true,
    }
}

/// Whether what isn't found is unknown: one of the first columns is NULL, or the value is and there is a row.
fn is_unknown(some_null: bool, some_row: bool, is_null: bool) -> bool
    ensures { result ≡ (some_null || (some_row && is_null)) }
{
    some_null || (some_row && is_null)
}

fn truth_of(found: bool, unknown: bool) -> Truth
    ensures { result ≡ truth_from found unknown }
{
    if found {
        return Truth::True;
    }
    if unknown {
        return Truth::Unknown;
    }
    Truth::False
}
