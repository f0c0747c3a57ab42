ghost use Rattle.std.specs.Prelude.{◌≡◌, [], length, count_by, Some, IsSome};
ghost use Rattle.bag_algebra.specs.Expressions.{value};
ghost use Rattle.bag_algebra.specs.Outcome.{each};
ghost use Rattle.bag_algebra.specs.TableRows.{rows_in};
ghost use Rattle.row_values.specs.Answers.{Gives};
ghost use Rattle.delete_impact.specs.vanishing.Doomed.{doomed_on};
ghost use Rattle.perm_catalog.specs.Changes.{table_named, rows_at};
ghost use Rattle.statement_meaning.specs.Answers.{IsTurn};
ghost use Rattle.statement_meaning.specs.Turns.{delete, drawing, identity_of, rows_deleted};

use crate::changes::refusing::refused;
use crate::changes::text::counting;
use bag_algebra::{Env, Expr, Tables};
use perm_catalog::Catalog;
use perm_values::{Bytes, Chars, List, Row, Value};
use row_values::{ExecError, eval, holds};
use statement_meaning::StepRefusal;
use std::alloc::Global;

/// DELETE at an offset, from a table that is known: the rows of which the condition is true, or all. `Run` names a fault
/// that the condition meets on one of the rows.
pub fn delete(
    alloc: Global,
    catalog: &mut Catalog,
    at: usize,
    name: &Chars,
    condition: &Option<Expr>,
) -> Result<Bytes, StepRefusal>
    requires { IsSome (table_named catalog.old name.now) }
    ensures { IsTurn (delete catalog.old at name.now condition.now) catalog.old catalog.new result }
{
    match doomed(alloc, rows_of(catalog, name), condition) {
        Ok(flags) => remove(alloc, catalog, at, name, flags.as_slice()),
        Err(error) => Err(StepRefusal::met(error, at)),
    }
}

/// The rows of a table that is known.
fn rows_of<'a>(catalog: &'a Catalog, name: &Chars) -> &'a [Row]
    requires { IsSome (table_named catalog.now name.now) }
    ensures { result.now ≡ rows_at catalog.now (identity_of catalog.now name.now) }
{
    match catalog.table(name) {
        Some(entry) => held_rows(catalog.tables(), entry.id),
        None => unreachable!(),
    }
}

fn held_rows(tables: &Tables, id: u64) -> &[Row]
    ensures { result.now ≡ rows_in tables.now id }
{
    match tables.rows(id) {
        Some(rows) => rows.as_slice(),
        None => &[],
    }
}

/// Flags the rows that go.
fn doomed(alloc: Global, rows: &[Row], condition: &Option<Expr>) -> Result<List<bool>, ExecError>
    ensures { Gives (each (doomed_on condition.now) rows.now) result }
{
    let mut flags = List::with_room(alloc, rows.len())?;
    for row in rows {
        flags.push(goes(alloc, row, condition)?)?;
    }
    Ok(flags)
}

/// Whether a row goes.
fn goes(alloc: Global, row: &Row, condition: &Option<Expr>) -> Result<bool, ExecError>
    ensures { Gives (doomed_on condition.now row.now) result }
{
    match condition {
        None => Ok(true),
        Some(condition) => is_true(alloc, row, condition),
    }
}

/// Whether the condition is true of a row.
fn is_true(alloc: Global, row: &Row, condition: &Expr) -> Result<bool, ExecError>
    ensures { Gives (doomed_on (Some condition.now) row.now) result }
{
    let value = value_on(alloc, row, condition)?;
    Ok(holds(&value))
}

/// The value of an expression on a row.
fn value_on(alloc: Global, row: &Row, expr: &Expr) -> Result<Value, ExecError>
    ensures { Gives (value expr.now row.now [] []) result }
{
    let env = Env::new(alloc);
    eval(alloc, expr, row, &[], &env)
}

/// Removes the flagged rows.
fn remove(
    alloc: Global,
    catalog: &mut Catalog,
    at: usize,
    name: &Chars,
    doomed: &[bool],
) -> Result<Bytes, StepRefusal>
    requires known { IsSome (table_named catalog.old name.now) }
    requires flags { length doomed.now ≡ length (rows_at catalog.old (identity_of catalog.old name.now)) }
    ensures { IsTurn (drawing catalog.old at (rows_deleted catalog.old name.now doomed.now))
        catalog.old catalog.new result }
{
    let text = counting(alloc, b"DELETE ", flagged(doomed))?;
    match catalog.delete_rows(name, doomed) {
        Ok(_) => Ok(text),
        Err(refusal) => Err(refused(refusal, at)),
    }
}

/// How many flags are set.
fn flagged(flags: &[bool]) -> usize
    ensures { result ≡ count_by (λ flag. flag) flags.now }
{
    flags.iter().filter(|flag| **flag).count()
}
