//! Cores, of clauses that are made.
ghost use Rattle.std.specs.Prelude.{◌≡◌, IfOk, IsOkAnd};
ghost use Rattle.name_meaning.specs.Cores.{aggregated_input};
ghost use Rattle.name_meaning.specs.nodes.Cored.{condition_over, clauses_over, listed_over};

use crate::nodes::distinct_if;
use crate::nodes::together::beside;
use bag_algebra::{Aggr, Expr, Item, Query, Sublink};
use perm_values::{List, NoMemory, both};
use std::alloc::Global;

/// A condition that is made, with its sublinks.
#[derive(Drop)]
pub struct Condition {
    pub expr: Expr,
    pub subs: List<Sublink>,
}

/// A SELECT list that is made, with its sublinks, and the aggregates of HAVING and the list.
#[derive(Drop)]
pub struct Listed {
    pub items: List<Item>,
    pub subs: List<Sublink>,
    pub aggregates: List<Aggr>,
}

/// What a core does with the rows of its FROM.
#[derive(Drop)]
pub struct Clauses {
    pub condition: Option<Condition>,
    pub groups: Option<List<usize>>,
    pub having: Option<Condition>,
    pub list: Listed,
    pub distinct: bool,
}

/// The core of these clauses over the rows of its FROM.
pub fn core_of(
    alloc: Global,
    input: Result<Query, NoMemory>,
    clauses: Result<Clauses, NoMemory>,
) -> Result<Query, NoMemory>
    ensures { IfOk result (λ made. IsOkAnd input (λ input. IsOkAnd clauses (λ clauses.
        made ≡ clauses_over input clauses))) }
{
    let (input, clauses) = both(input, clauses)?;
    let Clauses {
        condition,
        groups,
        having,
        list,
        distinct,
    } = clauses;
    let rows = condition_over(alloc, input, condition);
    let ((groups, having, list), rows) = beside((groups, having, list), rows)?;
    let made = listed_over(alloc, rows, groups, having, list)?;
    distinct_if(alloc, distinct, made)
}

/// The rows on which the condition is true, or all of them.
fn condition_over(
    alloc: Global,
    input: Query,
    condition: Option<Condition>,
) -> Result<Query, NoMemory>
    ensures { IfOk result (λ made. made ≡ condition_over input condition) }
{
    match condition {
        None => Ok(input),
        Some(Condition { expr, subs }) => Query::filter(alloc, input, expr, subs),
    }
}

/// The list over the rows, or over their groups.
fn listed_over(
    alloc: Global,
    rows: Query,
    groups: Option<List<usize>>,
    having: Option<Condition>,
    list: Listed,
) -> Result<Query, NoMemory>
    ensures { IfOk result (λ made. made ≡ listed_over rows groups having list) }
{
    let Listed {
        items,
        subs,
        aggregates,
    } = list;
    let grouped = grouped_if(alloc, rows, groups, aggregates);
    let ((having, items, subs), grouped) = beside((having, items, subs), grouped)?;
    let kept = condition_over(alloc, grouped, having);
    let ((items, subs), kept) = beside((items, subs), kept)?;
    Query::project(alloc, kept, items, subs)
}

/// The groups of the rows with their aggregates, or the rows themselves.
fn grouped_if(
    alloc: Global,
    rows: Query,
    groups: Option<List<usize>>,
    aggregates: List<Aggr>,
) -> Result<Query, NoMemory>
    ensures { IfOk result (λ made. made ≡ aggregated_input rows groups aggregates) }
{
    match groups {
        None => {
            drop(aggregates);
            Ok(rows)
        }
        Some(groups) => Query::aggregate(alloc, rows, groups, aggregates),
    }
}
