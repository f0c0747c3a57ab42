//! A query over some rows of a table.
#![tactic(auto, using(bag_algebra::proofs::Smaller::smaller))]

ghost use Rattle.std.specs.Prelude.{◌≡◌, ℕ, List, [], IfOk, IsTrue};
ghost use Rattle.bag_algebra.specs.built.Patterns.{FilterOf};
ghost use Rattle.bag_algebra.specs.declared.query.Query.TheVariants.{Table};
ghost use Rattle.bag_algebra.specs.declared.query.Query.{end_of-Sublink};
ghost use Rattle.perm_values.specs.declared.kind.Kind.{Kind};
ghost use Rattle.delete_impact.specs.reduced.Reduced.{not_true, over_rows, reduced, rows_of};
ghost use Rattle.query_facts.specs.monotone.Monotone.{is_monotone};

use bag_algebra::{Expr, Query};
use contribution::{join_on, projection, selection};
use null_logic::Truth;
use perm_values::{Boxed, Copyable, Kind, List, NoMemory, both, three};
use std::alloc::Global;

/// The query with, in the place of the table of the identity, its rows on which the condition is true, where the query is
/// monotone; of what no monotone query has a copy. It fails only for want of memory.
#[cycle(over_rows)]
pub fn over_rows(alloc: Global, query: &Query, id: u64, condition: &Expr) -> Result<Query, NoMemory>
    ensures { IfOk result (λ p. IsTrue (is_monotone query.now) → p ≡ over_rows id condition.now query.now) }
{
    match query {
        Query::Base {
            input,
            places,
            label,
        } => {
            let (input, places, label) = three(
                source_rows(alloc, input.get(), id, condition),
                places.copy(alloc),
                label.copy(alloc),
            )?;
            Query::base(alloc, input, places, label)
        }
        Query::Filter {
            input,
            condition: test,
            ..
        } => {
            let (input, test) = both(
                over_rows(alloc, input.get(), id, condition),
                test.copy(alloc),
            )?;
            selection(alloc, input, test)
        }
        Query::Project { input, items, .. } => {
            let (input, items) = both(
                over_rows(alloc, input.get(), id, condition),
                items.copy(alloc),
            )?;
            projection(alloc, input, items)
        }
        Query::Join {
            kind,
            left,
            right,
            condition: test,
            ..
        } => {
            let (left, right, test) = three(
                over_rows(alloc, left.get(), id, condition),
                over_rows(alloc, right.get(), id, condition),
                test.copy(alloc),
            )?;
            join_on(alloc, *kind, left, right, test)
        }
        Query::Union { all, left, right } => {
            let (left, right) = both(
                over_rows(alloc, left.get(), id, condition),
                over_rows(alloc, right.get(), id, condition),
            )?;
            Query::union(alloc, *all, left, right)
        }
        Query::Distinct { input } => {
            Query::distinct(alloc, over_rows(alloc, input.get(), id, condition)?)
        }
        Query::Single => Ok(Query::Single),
        Query::Table { .. } => query.copy(alloc),
        Query::Apply { .. } => query.copy(alloc),
        Query::Intersect { .. } => query.copy(alloc),
        Query::Except { .. } => query.copy(alloc),
        Query::Aggregate { .. } => query.copy(alloc),
        Query::Limit { .. } => query.copy(alloc),
        Query::Prov { .. } => query.copy(alloc),
    }
}

/// What a source is over: of the table of the identity its rows on which the condition is true.
fn source_rows(alloc: Global, input: &Query, id: u64, condition: &Expr) -> Result<Query, NoMemory>
    ensures { IfOk result (λ p. (other : ℕ) (kinds : List Kind) →
        input.now ≡ Table other kinds → p ≡ rows_of id condition.now other kinds) }
{
    match input {
        Query::Table { id: own, kinds } => table_rows(alloc, *own, kinds, id, condition),
        _ => input.copy(alloc),
    }
}

fn table_rows(
    alloc: Global,
    own: u64,
    kinds: &List<Kind>,
    id: u64,
    condition: &Expr,
) -> Result<Query, NoMemory>
    ensures { IfOk result (λ p. p ≡ rows_of id condition.now own kinds.now) }
{
    let kinds = kinds.copy(alloc)?;
    let table = Query::Table { id: own, kinds };
    if own == id {
        met_rows(alloc, table, condition)
    } else {
        Ok(table)
    }
}

/// The rows on which the condition is true.
fn met_rows(alloc: Global, table: Query, condition: &Expr) -> Result<Query, NoMemory>
    ensures { IfOk result (λ p. p ≡ FilterOf table condition.now [] end_of-Sublink) }
{
    let Ok(test) = condition.copy(alloc) else {
        drop(table);
        return Err(NoMemory);
    };
    selection(alloc, table, test)
}

/// The query over the rows of the table of the identity of which the condition isn't true, as `over_rows`. It fails only for
/// want of memory.
pub fn reduced(alloc: Global, query: &Query, id: u64, condition: &Expr) -> Result<Query, NoMemory>
    ensures { IfOk result (λ p. IsTrue (is_monotone query.now) → p ≡ reduced id condition.now query.now) }
{
    let spared = not_true(alloc, condition)?;
    let rows = over_rows(alloc, query, id, &spared);
    drop(spared);
    rows
}

/// Whether the expression is false or unknown.
fn not_true(alloc: Global, expr: &Expr) -> Result<Expr, NoMemory>
    ensures { IfOk result (λ e. e ≡ not_true expr.now) }
{
    let part = Boxed::new(alloc, expr.copy(alloc)?)?;
    let part = Boxed::new(
        alloc,
        Expr::IsTruth {
            truth: Truth::True,
            part,
        },
    )?;
    Ok(Expr::IsTruth {
        truth: Truth::False,
        part,
    })
}
