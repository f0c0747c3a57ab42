ghost use Rattle.std.specs.Prelude.{IfOk, IfSome, IsSome, IsTrue, OnOk};
ghost use Rattle.perm_catalog.specs.Changes.{is_free};
ghost use Rattle.statement_meaning.specs.Answers.{IsText, IsTurn};
ghost use Rattle.statement_meaning.specs.Ready.{CanRun};
ghost use Rattle.statement_meaning.specs.Turns.{create_table_as, select, store_answer};
ghost use Rattle.statement_steps.specs.Printed.{IsPrinted};
ghost use Rattle.statement_steps.specs.Runs.{IsAnswered, IsRun, Runs};

use crate::changes::{NewTable, store_answer};
use crate::runner::Runner;
use bag_algebra::Answer;
use csv_tables::answer_text;
use perm_catalog::Catalog;
use perm_values::{Bytes, Chars};
use plain_queries::plain_query;
use row_values::ExecError;
use statement_meaning::StepRefusal;
use std::alloc::Global;

/// The answer of a query at an offset: its rows in the order of its keys, then of all columns. They are those of the
/// runner's last run, of a plain query that stands for it. `Run` names a fault that it meets.
pub fn select(
    alloc: Global,
    catalog: &Catalog,
    at: usize,
    answer: &Answer,
    runner: &mut Runner,
) -> Result<Bytes, StepRefusal>
    requires { CanRun catalog.now answer.now }
    ensures text { IsText (select catalog.now at answer.now) catalog.now result }
    ensures ran { IfOk result (λ text. IsAnswered catalog.now answer.now text runner.new) }
{
    let told = run(alloc, catalog, answer, runner);
    text_of(alloc, at, answer.names.as_slice(), told, runner)
}

/// CREATE TABLE AS at an offset, of a free name: the table holds the rows of the runner's last run, of a
/// plain query that stands for the given one. `Run` names a fault that it meets, and nothing is stored then.
pub fn create_table_as(
    alloc: Global,
    catalog: &mut Catalog,
    at: usize,
    table: &NewTable,
    runner: &mut Runner,
) -> Result<Bytes, StepRefusal>
    requires free { IsTrue (is_free catalog.old table.now.name.now) }
    requires can { CanRun catalog.old table.now.answer.now }
    ensures turn { IsTurn (create_table_as catalog.old at table.now.name.now table.now.columns.now
        table.now.answer.now table.now.places.now) catalog.old catalog.new result }
    ensures ran { IfOk result (λ text. IsRun catalog.old table.now.answer.now runner.new) }
{
    match run(alloc, catalog, table.answer, runner) {
        Ok(()) => store_last(alloc, catalog, at, table, runner),
        Err(error) => Err(StepRefusal::met(error, at)),
    }
}

/// Runs a plain query that stands for the given one, and keeps it with its rows in the order of the given
/// one's keys, then of all columns.
fn run(
    alloc: Global,
    catalog: &Catalog,
    answer: &Answer,
    runner: &mut Runner,
) -> Result<(), ExecError>
    requires { CanRun catalog.now answer.now }
    ensures { Runs catalog.now answer.now result runner.new }
{
    let plain = plain_query(alloc, &answer.query)?;
    runner.run(alloc, plain, answer.keys.as_slice(), catalog.tables())
}

/// A table of the last run's rows in their order.
fn store_last(
    alloc: Global,
    catalog: &mut Catalog,
    at: usize,
    table: &NewTable,
    runner: &Runner,
) -> Result<Bytes, StepRefusal>
    requires free { IsTrue (is_free catalog.old table.now.name.now) }
    requires run { IsSome runner.now }
    ensures { IfSome runner.now (λ ran. IsTurn (store_answer catalog.old at table.now.name.now
        table.now.columns.now table.now.answer.now table.now.places.now ran.rows)
        catalog.old catalog.new result) }
{
    match runner.last() {
        Some(ran) => store_answer(alloc, catalog, at, table, &ran.rows),
        None => unreachable!(),
    }
}

/// The text of the last run's rows in their order, or the refusal of a statement at an offset.
fn text_of(
    alloc: Global,
    at: usize,
    names: &[Chars],
    told: Result<(), ExecError>,
    runner: &Runner,
) -> Result<Bytes, StepRefusal>
    requires { OnOk told (IsSome runner.now) }
    ensures { IsPrinted at names.now told runner.now result }
{
    match told {
        Ok(()) => match runner.last() {
            Some(ran) => Ok(answer_text(alloc, names, &ran.rows)?),
            None => unreachable!(),
        },
        Err(error) => Err(StepRefusal::met(error, at)),
    }
}
