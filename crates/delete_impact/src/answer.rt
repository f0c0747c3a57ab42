//! The answer to which rows vanish.
ghost use Rattle.std.specs.Prelude.{◌≡◌, [], true, IfOk, IsTrue, option_copied};
ghost use Rattle.bag_algebra.specs.Kinds.{kinds_of};
ghost use Rattle.bag_algebra.specs.WellFormed.{WellFormed};
ghost use Rattle.bag_algebra.specs.declared.query.Query.TheVariants.{Union};
ghost use Rattle.delete_impact.specs.Answering.{adds_none, looked_through, lost, never, no_row_of, vanishing, with_faults};
ghost use Rattle.delete_impact.specs.Impact.{IsImpact};
ghost use Rattle.query_facts.specs.monotone.Conditions.{ConditionFits};
ghost use Rattle.query_facts.specs.monotone.Monotone.{is_monotone};
ghost use Rattle.contribution.specs.Conjunctions.{condition_or_true};
ghost use Rattle.delete_impact.specs.reduced.Reduced.{behind, missing};

use crate::reduced::{behind, first_kinds, hides_none, missing, missing_part, splits};
use bag_algebra::{Expr, Query, faultless};
use contribution::{always, kinds as columns, null_items, projection, selection};
use perm_values::{Copyable, Kind, List, NoMemory, Value, both};
use std::alloc::Global;

/// A query that answers which rows of a monotone, closed query vanish where the rows of the table of the identity that meet the
/// condition are deleted, or all its rows where there is none; the condition is a truth on the kinds of each table of the
/// identity, without sublinks and without columns of outer rows. The answer is plain and closed, has the query's kinds and
/// reads its tables alone. On a database that fits, where the query doesn't read the table, it has no row, and the query's
/// faults. Else it has the rows that vanish, each once, where the query is good and the condition is good on every row of the
/// table; and where one isn't, it is bad with the faults of both. It fails only for want of memory.
pub fn impact(
    alloc: Global,
    query: &Query,
    id: u64,
    condition: Option<&Expr>,
) -> Result<Query, NoMemory>
    ensures { IfOk result (λ p. IsTrue (is_monotone query.now) → WellFormed [] query.now →
        ConditionFits id (option_copied condition.entry) query.now →
        IsImpact query.now id (option_copied condition.entry) p) }
{
    match first_kinds(query, id) {
        None => nothing(alloc, query),
        Some(kinds) => {
            let condition = condition_or_true(alloc, condition)?;
            let found = vanishing(alloc, query, id, kinds, &condition);
            drop(condition);
            found
        }
    }
}

/// No row, with the faults of the query.
fn nothing(alloc: Global, query: &Query) -> Result<Query, NoMemory>
    ensures { IfOk result (λ p. p ≡ no_row_of query.now) }
{
    let rows = query.copy(alloc)?;
    no_row_of(alloc, rows)
}

/// The condition, or TRUE where there is none.
fn condition_or_true(alloc: Global, condition: Option<&Expr>) -> Result<Expr, NoMemory>
    ensures { IfOk result (λ e. e ≡ condition_or_true (option_copied condition.entry)) }
{
    match condition {
        Some(condition) => condition.copy(alloc),
        None => Ok(always()),
    }
}

/// The rows of the query, which reads the table with these kinds, that vanish.
fn vanishing(
    alloc: Global,
    query: &Query,
    id: u64,
    kinds: &List<Kind>,
    condition: &Expr,
) -> Result<Query, NoMemory>
    ensures { IfOk result (λ p. IsTrue (is_monotone query.now) →
        p ≡ vanishing query.now id kinds.now condition.now) }
{
    if adds_none(query, condition) {
        lost(alloc, query, id, condition)
    } else {
        lost_behind(alloc, query, id, kinds, condition)
    }
}

/// Whether the query meets no further fault over what is left of the table.
fn adds_none(query: &Query, condition: &Expr) -> bool
    ensures { result ≡ adds_none condition.now query.now }
{
    faultless(condition) && hides_none(query)
}

/// The rows that are missing over what is left of the table. Where none other can be, they are looked for among the rows over
/// those that go, which are the fewer.
fn lost(alloc: Global, query: &Query, id: u64, condition: &Expr) -> Result<Query, NoMemory>
    ensures { IfOk result (λ p. IsTrue (is_monotone query.now) → p ≡ lost id condition.now query.now) }
{
    if splits(query, id) {
        missing_part(alloc, query, id, condition)
    } else {
        missing(alloc, query, id, condition)
    }
}

/// The rows that are missing where the query and the condition are good, and else the faults of these.
fn lost_behind(
    alloc: Global,
    query: &Query,
    id: u64,
    kinds: &List<Kind>,
    condition: &Expr,
) -> Result<Query, NoMemory>
    ensures { IfOk result (λ p. IsTrue (is_monotone query.now) →
        p ≡ behind (with_faults query.now (kinds_of query.now) id kinds.now condition.now)
        (missing id condition.now query.now)) }
{
    let (first, missing) = both(
        all_faults(alloc, query, id, kinds, condition),
        missing(alloc, query, id, condition),
    )?;
    behind(alloc, first, missing)
}

/// The query, with the faults that the condition meets on the rows of the table beside its own.
fn all_faults(
    alloc: Global,
    query: &Query,
    id: u64,
    kinds: &List<Kind>,
    condition: &Expr,
) -> Result<Query, NoMemory>
    ensures { IfOk result (λ p.
        p ≡ with_faults query.now (kinds_of query.now) id kinds.now condition.now) }
{
    let columns = columns(alloc, query)?;
    with_faults(alloc, query, columns.as_slice(), id, kinds, condition)
}

/// The query, with the faults that the condition meets on the rows of the table, where it can meet any.
fn with_faults(
    alloc: Global,
    query: &Query,
    columns: &[Kind],
    id: u64,
    kinds: &List<Kind>,
    condition: &Expr,
) -> Result<Query, NoMemory>
    ensures { IfOk result (λ p. p ≡ with_faults query.now columns.now id kinds.now condition.now) }
{
    if faultless(condition) {
        query.copy(alloc)
    } else {
        looked_beside(alloc, query, columns, id, kinds, condition)
    }
}

/// The rows of the query, with the faults of the condition on the rows of the table beside its own.
fn looked_beside(
    alloc: Global,
    query: &Query,
    columns: &[Kind],
    id: u64,
    kinds: &List<Kind>,
    condition: &Expr,
) -> Result<Query, NoMemory>
    ensures { IfOk result (λ p.
        p ≡ Union true query.now (looked_through columns.now id kinds.now condition.now)) }
{
    let (rows, none) = both(
        query.copy(alloc),
        looked_through(alloc, columns, id, kinds, condition),
    )?;
    Query::union(alloc, true, rows, none)
}

/// No row, with the faults that the condition meets on the rows of the table.
fn looked_through(
    alloc: Global,
    columns: &[Kind],
    id: u64,
    kinds: &List<Kind>,
    condition: &Expr,
) -> Result<Query, NoMemory>
    ensures { IfOk result (λ p. p ≡ looked_through columns.now id kinds.now condition.now) }
{
    let (kinds, condition) = both(kinds.copy(alloc), condition.copy(alloc))?;
    let rows = selection(alloc, Query::Table { id, kinds }, condition)?;
    let none = no_row_of(alloc, rows)?;
    let Ok(items) = null_items(alloc, columns) else {
        drop(none);
        return Err(NoMemory);
    };
    projection(alloc, none, items)
}

/// None of the rows, with their faults.
fn no_row_of(alloc: Global, query: Query) -> Result<Query, NoMemory>
    ensures { IfOk result (λ p. p ≡ no_row_of query) }
{
    selection(alloc, query, never())
}

fn never() -> Expr
    ensures { result ≡ never }
{
    Expr::Lit {
        value: Value::Boolean(false),
        kind: Kind::Boolean,
    }
}
