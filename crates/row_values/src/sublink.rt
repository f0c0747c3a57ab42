//! What a sublink is over the rows of its query.
ghost use Rattle.std.specs.Prelude.{◌≡◌, map};
ghost use Rattle.null_logic.specs.Comparison.{compare_values};
ghost use Rattle.bag_algebra.specs.Meaning.{optional_value};
ghost use Rattle.bag_algebra.specs.Means.{sub_value, scalar, some_of, all_of, comparisons, cell};
ghost use Rattle.row_values.specs.Answers.{Gives};

use crate::expression::value_at;
use crate::{ExecError, eval};
use bag_algebra::{Env, Expr, SubKind};
use null_logic::{Compare, RunFault, Truth, compare_values};
use perm_values::{Row, Value};
use std::alloc::Global;

/// The value of a part that may be left out.
pub fn optional_value(
    alloc: Global,
    part: &Option<Expr>,
    row: &Row,
    env: &Env,
) -> Result<Value, ExecError>
    ensures { Gives (optional_value part.now env.now row.now) result }
{
    match part {
        Some(expr) => eval(alloc, expr, row, &[], env),
        None => Ok(Value::Null),
    }
}

/// The value of a sublink over the rows of its query.
pub fn sub_value(
    alloc: Global,
    kind: SubKind,
    tested: &Value,
    rows: &[Row],
) -> Result<Value, ExecError>
    ensures { Gives (sub_value kind tested.now rows.now) result }
{
    match kind {
        SubKind::Exists => Ok(Value::Boolean(!rows.is_empty())),
        SubKind::Any(compare) => Ok(some_of(compare, tested, rows).value()),
        SubKind::All(compare) => Ok(all_of(compare, tested, rows).value()),
        SubKind::Scalar => scalar(alloc, rows),
    }
}

/// The one row's first column, NULL where there is no row; several rows are a fault.
fn scalar(alloc: Global, rows: &[Row]) -> Result<Value, ExecError>
    ensures { Gives (scalar rows.now) result }
{
    if rows.len() > 1 {
        return Err(ExecError::Fault(RunFault::SeveralRows));
    }
    match rows {
        [row, ..] => value_at(alloc, row.as_slice(), 0),
        [] => Ok(Value::Null),
    }
}

/// Whether the comparison is true on some row, else unknown on some.
fn some_of(compare: Compare, tested: &Value, rows: &[Row]) -> Truth
    ensures { result ≡ some_of (comparisons compare tested.now rows.now) }
{
    let mut truth = Truth::False;
    for row in rows {
        truth = truth.or(compare_cell(compare, tested, row));
    }
    truth
}

/// Whether the comparison is false on some row, else unknown on some.
fn all_of(compare: Compare, tested: &Value, rows: &[Row]) -> Truth
    ensures { result ≡ all_of (comparisons compare tested.now rows.now) }
{
    let mut truth = Truth::True;
    for row in rows {
        truth = truth.and(compare_cell(compare, tested, row));
    }
    truth
}

/// The comparison with a row's first column.
fn compare_cell(compare: Compare, tested: &Value, row: &Row) -> Truth
    ensures { result ≡ compare_values compare tested.now (cell row.now) }
{
    match row.as_slice() {
        [value, ..] => compare_values(compare, tested, value),
        [] => compare_values(compare, tested, &Value::Null),
    }
}
