//! What nodes give for what their inputs gave.
ghost use Rattle.std.specs.Prelude.{IfOk, take};
ghost use Rattle.perm_values.specs.Rows.{printed_cmp};
ghost use Rattle.bag_algebra.specs.Bags.{Bag, except_of, intersect_of, once, sorted, union_of};
ghost use Rattle.bag_algebra.specs.Meaning.{arguments_on, functions_of};
ghost use Rattle.bag_algebra.specs.Means.{grouped};
ghost use Rattle.bag_algebra.specs.Outcome.{Good, Outcome, and_then, both, mapped};
ghost use Rattle.row_values.specs.Answers.{Gives};
ghost use Rattle.row_nodes.specs.results.Screened.{GivesLeft, HasFlags};

use crate::results::screened::Screened;
use crate::{Input, distinct, excepted, in_groups, intersected, limited, made, united};
use bag_algebra::{Aggr, Env};
use perm_values::Key;
use row_values::ExecError;
use std::alloc::Global;

/// All rows that an input gave, none of them left out.
pub fn whole_rows<'a>(rows: Result<Input<'a>, ExecError>) -> Result<Screened<'a>, ExecError>
    ensures { (o : Outcome Bag) → Gives o rows.entry → GivesLeft o result }
{
    let rows = rows?;
    Ok(Screened::whole(rows))
}

/// The rows that a filter leaves: made ones themselves, of stored ones copies unless none is left out.
pub fn kept_rows<'a>(
    alloc: Global,
    left: Result<Screened<'a>, ExecError>,
) -> Result<Input<'a>, ExecError>
    requires { IfOk left HasFlags }
    ensures { (o : Outcome Bag) → GivesLeft o left.entry → Gives o result }
{
    let left = left?;
    Ok(left.into_input(alloc)?)
}

/// Each row once.
pub fn distinct_rows<'a>(
    alloc: Global,
    rows: Result<Input<'a>, ExecError>,
) -> Result<Input<'a>, ExecError>
    ensures { (o : Outcome Bag) → Gives o rows.entry → Gives (mapped once o) result }
{
    let rows = rows?;
    made(distinct(alloc, rows))
}

/// The first rows in the order of the keys, then of all columns.
pub fn limit_rows<'a>(
    alloc: Global,
    rows: Result<Input<'a>, ExecError>,
    keys: &[Key],
    count: u64,
) -> Result<Input<'a>, ExecError>
    ensures { (o : Outcome Bag) → Gives o rows.entry
        → Gives (mapped (λ bag. take count (sorted (printed_cmp keys.now) bag)) o) result }
{
    let rows = rows?;
    made(limited(alloc, rows, keys, count))
}

/// The rows of the classes with the same group values.
pub fn group_rows<'a>(
    alloc: Global,
    rows: Result<Input<'a>, ExecError>,
    groups: &[usize],
    aggregates: &[Aggr],
    env: &Env,
) -> Result<Input<'a>, ExecError>
    ensures { (o : Outcome Bag) → Gives o rows.entry
        → Gives (and_then o (grouped groups.now (functions_of aggregates.now)
        (arguments_on aggregates.now env.now))) result }
{
    let rows = rows?;
    in_groups(alloc, rows, groups, aggregates, env)
}

/// The rows of the left side, then those of the right; unless all are wanted, each once.
pub fn union_rows<'a>(
    alloc: Global,
    all: bool,
    left: Input<'a>,
    right: Result<Input<'a>, ExecError>,
) -> Result<Input<'a>, ExecError>
    ensures { (o : Outcome Bag) → Gives o right.entry
        → Gives (both (union_of all) (Good left.entry) o) result }
{
    let right = right?;
    made(united(alloc, all, left, right))
}

/// The rows of the left side that are also in the right.
pub fn intersect_rows<'a>(
    alloc: Global,
    all: bool,
    left: Input<'a>,
    right: Result<Input<'a>, ExecError>,
) -> Result<Input<'a>, ExecError>
    ensures { (o : Outcome Bag) → Gives o right.entry
        → Gives (both (intersect_of all) (Good left.entry) o) result }
{
    let right = right?;
    made(intersected(alloc, all, left, right))
}

/// The rows of the left side that the right lacks.
pub fn except_rows<'a>(
    alloc: Global,
    all: bool,
    left: Input<'a>,
    right: Result<Input<'a>, ExecError>,
) -> Result<Input<'a>, ExecError>
    ensures { (o : Outcome Bag) → Gives o right.entry
        → Gives (both (except_of all) (Good left.entry) o) result }
{
    let right = right?;
    made(excepted(alloc, all, left, right))
}
