//! The rows of an Aggregate.
ghost use Rattle.std.specs.Prelude.{◌≡◌, ◌++◌, List, map};
ghost use Rattle.bag_algebra.specs.Bags.{Row};
ghost use Rattle.bag_algebra.specs.Meaning.{arguments_on, functions_of};
ghost use Rattle.bag_algebra.specs.Means.{grouped};
ghost use Rattle.bag_algebra.specs.Outcome.{Outcome, each, mapped};
ghost use Rattle.row_values.specs.Answers.{Gives};
ghost use Rattle.row_values.specs.Columns.{class_value, MakesRows};

use crate::error::ExecError;
use crate::groups::aggregate::aggregated;
use crate::groups::class::classes_of;
use crate::groups::column::{Column, columns_of};
use bag_algebra::{Aggr, Env};
use indexmap::IndexSet;
use perm_values::{List, Row, Rows, Value};
use std::alloc::Global;

/// A row for each class of rows with the same group values: these, then the aggregates of the class. Without groups
/// there is one class, also of no row. All arguments are evaluated on all rows before any aggregate.
///
/// `Fault` names a fault that an argument meets or, where none does, that of a sum out of range.
pub fn grouped(
    alloc: Global,
    rows: &[Row],
    groups: &[usize],
    aggregates: &[Aggr],
    env: &Env,
) -> Result<Rows, ExecError>
    ensures { Gives (grouped groups.now (functions_of aggregates.now) (arguments_on aggregates.now env.now)
        rows.now) result }
{
    let classes = classes_of(alloc, rows, groups)?;
    let count = classes.keys.len();
    let columns = columns_of(
        alloc,
        aggregates,
        rows,
        classes.numbers.as_slice(),
        count,
        env,
    )?;
    class_rows(alloc, classes.keys, columns.as_slice())
}

/// The row of each class.
fn class_rows(alloc: Global, keys: IndexSet<Row>, columns: &[Column]) -> Result<Rows, ExecError>
    ensures { (make : Row → Outcome Row) → MakesRows make keys.keys columns.now
        → Gives (each make keys.keys) result }
{
    let mut rows = List::with_room(alloc, keys.len())?;
    let mut number = 0;
    for key in keys {
        rows.push(class_row(alloc, key, columns, number)?)?;
        number += 1;
    }
    Ok(rows)
}

/// The group values of a class, then its aggregates.
fn class_row(alloc: Global, key: Row, columns: &[Column], number: usize) -> Result<Row, ExecError>
    ensures { Gives (mapped (λ values. key ++ values) (each (class_value number) columns.now)) result }
{
    let mut row = key;
    for column in columns {
        row.push(class_value(alloc, column, number)?)?;
    }
    Ok(row)
}

/// The aggregate of the values of a class.
fn class_value(alloc: Global, column: &Column, number: usize) -> Result<Value, ExecError>
    ensures { Gives (class_value number column.now) result }
{
    match column.values.as_slice().get(number) {
        Some(values) => aggregated(alloc, column.function, values.as_slice()),
        None => aggregated(alloc, column.function, &[]),
    }
}
