//! The columns that a query reads of its outer rows.
ghost use Rattle.std.specs.Prelude.{◌≡◌, ◌++◌, IfOk};
ghost use Rattle.query_facts.specs.reached.reads.Columns.{behind, columns_of, one_nearer};
ghost use Rattle.query_facts.specs.reached.reads.built.Columns.{all_subs_columns};

use crate::reached::reads::expressions::{
    aggregates_columns, expr_columns, items_columns, option_columns,
};
use bag_algebra::{Query, Sublink};
use perm_values::{List, NoMemory};
use std::alloc::Global;

/// A column of one of the rows around: level 0 is the nearest.
#[derive(Clone, Copy, PartialEq, Eq)]
pub struct OuterColumn {
    pub level: usize,
    pub place: usize,
}

/// The columns that the query reads of its outer rows, in the order and as often as it names them. It fails only for want of
/// memory.
pub fn columns_of(alloc: Global, query: &Query) -> Result<List<OuterColumn>, NoMemory>
    ensures { IfOk result (λ columns. columns ≡ columns_of query.now) }
{
    query_columns(alloc, query, List::new(alloc))
}

/// Those of the query, behind what was found before.
#[cycle(query_columns)]
fn query_columns(
    alloc: Global,
    query: &Query,
    found: List<OuterColumn>,
) -> Result<List<OuterColumn>, NoMemory>
    ensures { IfOk result (λ columns. columns ≡ found ++ columns_of query.now) }
{
    match query {
        Query::Table { .. } => Ok(found),
        Query::Single => Ok(found),
        Query::Base { input, .. } => query_columns(alloc, input.get(), found),
        Query::Filter {
            input,
            condition,
            subs,
        } => {
            let found = query_columns(alloc, input.get(), found)?;
            let own = expr_columns(condition, List::new(alloc))?;
            let own = subs_columns(alloc, subs.as_slice(), own)?;
            with_behind(found, own.as_slice())
        }
        Query::Project { input, items, subs } => {
            let found = query_columns(alloc, input.get(), found)?;
            let own = items_columns(items.as_slice(), List::new(alloc))?;
            let own = subs_columns(alloc, subs.as_slice(), own)?;
            with_behind(found, own.as_slice())
        }
        Query::Join {
            left,
            right,
            condition,
            subs,
            ..
        } => {
            let found = query_columns(alloc, left.get(), found)?;
            let found = query_columns(alloc, right.get(), found)?;
            let own = expr_columns(condition, List::new(alloc))?;
            let own = subs_columns(alloc, subs.as_slice(), own)?;
            with_behind(found, own.as_slice())
        }
        Query::Apply { left, right, .. } => {
            let found = query_columns(alloc, left.get(), found)?;
            let inner = query_columns(alloc, right.get(), List::new(alloc))?;
            with_behind(found, inner.as_slice())
        }
        Query::Union { left, right, .. } => {
            let found = query_columns(alloc, left.get(), found)?;
            query_columns(alloc, right.get(), found)
        }
        Query::Intersect { left, right, .. } => {
            let found = query_columns(alloc, left.get(), found)?;
            query_columns(alloc, right.get(), found)
        }
        Query::Except { left, right, .. } => {
            let found = query_columns(alloc, left.get(), found)?;
            query_columns(alloc, right.get(), found)
        }
        Query::Distinct { input } => query_columns(alloc, input.get(), found),
        Query::Aggregate {
            input,
            aggregates,
            ..
        } => {
            let found = query_columns(alloc, input.get(), found)?;
            let own = aggregates_columns(aggregates.as_slice(), List::new(alloc))?;
            with_behind(found, own.as_slice())
        }
        Query::Limit { input, .. } => query_columns(alloc, input.get(), found),
        Query::Prov { input } => query_columns(alloc, input.get(), found),
    }
}

/// Those of a node's sublinks, whose queries have the node's row as their nearest outer row.
#[cycle(query_columns)]
fn subs_columns(
    alloc: Global,
    subs: &[Sublink],
    found: List<OuterColumn>,
) -> Result<List<OuterColumn>, NoMemory>
    ensures { IfOk result (λ columns. columns ≡ found ++ all_subs_columns subs.now) }
{
    let mut columns = found;
    for sub in subs {
        columns = option_columns(&sub.tested, columns)?;
        columns = query_columns(alloc, &sub.query, columns)?;
    }
    Ok(columns)
}

/// Of the columns those of the rows behind the nearest, as they are seen from there, behind what was found before.
fn with_behind(
    found: List<OuterColumn>,
    columns: &[OuterColumn],
) -> Result<List<OuterColumn>, NoMemory>
    ensures { IfOk result (λ more. more ≡ found ++ behind columns.now) }
{
    let mut more = found;
    for column in columns {
        more = with_nearer(more, column.level, column.place)?;
    }
    Ok(more)
}

fn with_nearer(
    found: List<OuterColumn>,
    level: usize,
    place: usize,
) -> Result<List<OuterColumn>, NoMemory>
    ensures { IfOk result (λ more. more ≡ found ++ one_nearer level place) }
{
    let mut more = found;
    if level > 0 {
        more.push(OuterColumn {
            level: level - 1,
            place,
        })?;
    }
    Ok(more)
}
