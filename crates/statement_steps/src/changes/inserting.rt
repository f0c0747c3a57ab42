ghost use Rattle.std.specs.Prelude.{IsSome};
ghost use Rattle.bag_algebra.specs.Outcome.{each};
ghost use Rattle.row_values.specs.Answers.{Gives};
ghost use Rattle.perm_catalog.specs.Changes.{table_named};
ghost use Rattle.statement_meaning.specs.Answers.{IsTurn};
ghost use Rattle.statement_meaning.specs.Turns.{insert, row_value};

use crate::changes::adding::add_rows;
use bag_algebra::Expr;
use perm_catalog::Catalog;
use perm_values::{Bytes, Chars, List, Row, Rows};
use row_values::{ExecError, value_alone};
use statement_meaning::StepRefusal;
use std::alloc::Global;

/// INSERT at an offset, into a table that is known: the expressions of all rows are evaluated before any row is added.
/// `Run` names a fault that one of them meets.
pub fn insert(
    alloc: Global,
    catalog: &mut Catalog,
    at: usize,
    name: &Chars,
    rows: &List<List<Expr>>,
) -> Result<Bytes, StepRefusal>
    requires { IsSome (table_named catalog.old name.now) }
    ensures { IsTurn (insert catalog.old at name.now rows.now) catalog.old catalog.new result }
{
    match row_values(alloc, rows.as_slice()) {
        Ok(made) => add_rows(alloc, catalog, at, b"INSERT ", name, made),
        Err(error) => Err(StepRefusal::met(error, at)),
    }
}

/// The rows that these expressions make.
fn row_values(alloc: Global, rows: &[List<Expr>]) -> Result<Rows, ExecError>
    ensures { Gives (each row_value rows.now) result }
{
    let mut made = List::with_room(alloc, rows.len())?;
    for row in rows {
        made.push(row_value(alloc, row.as_slice())?)?;
    }
    Ok(made)
}

/// The values of a row's expressions.
fn row_value(alloc: Global, exprs: &[Expr]) -> Result<Row, ExecError>
    ensures { Gives (row_value exprs.now) result }
{
    let mut values = Row::with_room(alloc, exprs.len())?;
    for expr in exprs {
        values.push(value_alone(alloc, expr)?)?;
    }
    Ok(values)
}
