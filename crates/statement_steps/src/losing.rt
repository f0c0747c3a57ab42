ghost use Rattle.std.specs.Prelude.{◌≡◌, IfOk, IsSome};
ghost use Rattle.perm_catalog.specs.Changes.{table_named};
ghost use Rattle.statement_meaning.specs.Answers.{IsText};
ghost use Rattle.statement_meaning.specs.Ready.{CanLose};
ghost use Rattle.statement_meaning.specs.Turns.{identity_of, impact};
ghost use Rattle.statement_steps.specs.Runs.{IsLost, IsLostBy};

use crate::answering::select;
use crate::runner::Runner;
use bag_algebra::{Answer, Expr};
use delete_impact::impact as query_of_impact;
use perm_catalog::Catalog;
use perm_values::{Bytes, Chars, Copyable, NoMemory};
use statement_meaning::StepRefusal;
use std::alloc::Global;

/// IMPACT at an offset, of a table that is known: the rows of a query that would vanish if the rows of the table that meet the
/// condition were deleted, each once, in the order of the query's keys, then of all columns. They are those of the runner's
/// last run. `Run` names a fault that the query meets or, where it reads the table, the condition on one of the rows.
pub fn impact(
    alloc: Global,
    catalog: &Catalog,
    at: usize,
    name: &Chars,
    condition: &Option<Expr>,
    answer: &Answer,
    runner: &mut Runner,
) -> Result<Bytes, StepRefusal>
    requires { CanLose catalog.now name.now condition.now answer.now }
    ensures text { IsText (impact catalog.now at name.now condition.now answer.now) catalog.now result }
    ensures ran { IfOk result (λ text. IsLost catalog.now name.now condition.now answer.now text runner.new) }
{
    let lost = lost_answer(alloc, catalog, name, condition, answer)?;
    let told = select(alloc, catalog, at, &lost, runner);
    drop(lost);
    told
}

/// A query that answers which rows vanish, with the names and the order of the other.
fn lost_answer(
    alloc: Global,
    catalog: &Catalog,
    name: &Chars,
    condition: &Option<Expr>,
    answer: &Answer,
) -> Result<Answer, NoMemory>
    requires { CanLose catalog.now name.now condition.now answer.now }
    ensures { IfOk result (λ lost. IsLostBy catalog.now name.now condition.now answer.now lost) }
{
    let names = answer.names.copy(alloc)?;
    let keys = answer.keys.copy(alloc)?;
    let id = identity_of(catalog, name);
    let query = query_of_impact(alloc, &answer.query, id, condition.as_ref())?;
    Ok(Answer { query, names, keys })
}

/// The identity of a table that is known.
fn identity_of(catalog: &Catalog, name: &Chars) -> u64
    requires { IsSome (table_named catalog.now name.now) }
    ensures { result ≡ identity_of catalog.now name.now }
{
    match catalog.table(name) {
        Some(entry) => entry.id,
        None => unreachable!(),
    }
}
