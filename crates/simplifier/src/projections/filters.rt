//! Filters below projections to columns.
ghost use Rattle.std.specs.Prelude.{◌≡◌, List as ItemsOf, IfOk, IfSome};
ghost use Rattle.bag_algebra.specs.Rewriting.{Stands};
ghost use Rattle.bag_algebra.specs.declared.expr.Expr.{Expr};
ghost use Rattle.bag_algebra.specs.declared.query.Query.TheVariants.{Filter};
ghost use Rattle.bag_algebra.specs.declared.query.Query.{Query};
ghost use Rattle.bag_algebra.specs.declared.query.Sublink.{Sublink};
ghost use Rattle.simplifier.specs.projections.Plans.{IsFilterPlan};

use crate::projections::carried::{all_reach, carried, leading};
use crate::projections::sides::{below, under};
use bag_algebra::{Expr, Query, Selection, Sublink};
use contribution::{moved, regroup};
use perm_values::{List, NoMemory};
use std::alloc::Global;

/// The columns above a filter, and its condition over the rows below it.
#[derive(Drop)]
pub struct FilterPlan {
    pub order: List<usize>,
    pub condition: Expr,
}

/// What stands for whatever the query stands for. A filter over a projection to columns is that projection over the filter,
/// where the queries of its sublinks read none but the first columns of the projection, and these are the first ones below it too,
/// in their order. It fails where the query failed, and for want of memory.
pub fn filter_raised(alloc: Global, query: Result<Query, NoMemory>) -> Result<Query, NoMemory>
    ensures { (q : Query) → IfOk query (λ b. Stands q b) → IfOk result (λ p. Stands q p) }
{
    let query = query?;
    let Ok(found) = plan(alloc, &query) else {
        drop(query);
        return Err(NoMemory);
    };
    match found {
        Some(plan) => lowered(alloc, query, plan),
        None => Ok(query),
    }
}

fn plan(alloc: Global, query: &Query) -> Result<Option<FilterPlan>, NoMemory>
    ensures { IfOk result (λ found. IfSome found (λ plan. IsFilterPlan query.now plan)) }
{
    match query {
        Query::Filter {
            input,
            condition,
            subs,
        } => plan_of(alloc, input.get(), condition, subs),
        _ => Ok(None),
    }
}

/// The plan for a filter.
fn plan_of(
    alloc: Global,
    input: &Query,
    condition: &Expr,
    subs: &List<Sublink>,
) -> Result<Option<FilterPlan>, NoMemory>
    ensures { IfOk result (λ found. IfSome found (λ plan.
        IsFilterPlan (Filter input.now condition.now subs.now) plan)) }
{
    let Some(side) = below(alloc, input)? else {
        return Ok(None);
    };
    let first = leading(side.places.as_slice());
    if !all_reach(first, subs.as_slice()) {
        return Ok(None);
    }
    let condition = moved(alloc, condition, side.places.as_slice())?;
    Ok(Some(FilterPlan {
        order: side.places,
        condition,
    }))
}

/// The projection over the filter.
fn lowered(alloc: Global, query: Query, plan: FilterPlan) -> Result<Query, NoMemory>
    requires { IsFilterPlan query plan }
    ensures { (q : Query) → Stands q query → IfOk result (λ p. Stands q p) }
{
    let (input, subs) = filtered(alloc, query);
    let Ok(subs) = carried(alloc, subs, plan.order.as_slice()) else {
        drop(input);
        drop(plan);
        return Err(NoMemory);
    };
    let kept = Query::filter(alloc, under(input, true), plan.condition, subs)?;
    regroup(alloc, kept, plan.order.as_slice())
}

/// The input and the sublinks of a filter.
fn filtered(alloc: Global, query: Query) -> (Query, List<Sublink>)
    ensures { (input : Query) (condition : Expr) (subs : ItemsOf Sublink) →
        query ≡ Filter input condition subs → result ≡ (input, subs) }
{
    match query.into_selection() {
        Ok(Selection { input, subs, .. }) => (input, subs),
        Err(other) => (other, List::new(alloc)),
    }
}
