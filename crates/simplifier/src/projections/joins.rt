//! Joins below projections to columns.
ghost use Rattle.std.specs.Prelude.{◌≡◌, ◌+◌, [], List, IfOk, IfSome, map};
ghost use Rattle.bag_algebra.specs.Rewriting.{Stands};
ghost use Rattle.bag_algebra.specs.declared.expr.Expr.{Expr};
ghost use Rattle.bag_algebra.specs.declared.query.JoinKind.{JoinKind};
ghost use Rattle.bag_algebra.specs.declared.query.Query.TheVariants.{Join};
ghost use Rattle.bag_algebra.specs.declared.query.Query.{Query};
ghost use Rattle.simplifier.specs.projections.Plans.{IsJoinPlan, pair_places};

use crate::projections::sides::{Side, side_of, under};
use bag_algebra::{Expr, JoinKind, JoinParts, Query};
use contribution::{join_on, moved, regroup};
use perm_values::{List, NoMemory, both};
use rewrite_core::sum;
use std::alloc::Global;

/// The columns above a join, its condition over the pairs below, and which of its sides are projections that it stands below.
#[derive(Drop)]
pub struct JoinPlan {
    pub kind: JoinKind,
    pub left: bool,
    pub right: bool,
    pub order: List<usize>,
    pub condition: Expr,
}

/// What stands for whatever the query stands for. A join without sublinks over projections to columns is a projection over
/// the join. It fails where the query failed, and for want of memory.
pub fn join_raised(alloc: Global, query: Result<Query, NoMemory>) -> Result<Query, NoMemory>
    ensures { (q : Query) → IfOk query (λ b. Stands q b) → IfOk result (λ p. Stands q p) }
{
    let query = query?;
    let Ok(found) = plan(alloc, &query) else {
        drop(query);
        return Err(NoMemory);
    };
    match found {
        Some(plan) => lowered(alloc, query, plan),
        None => Ok(query),
    }
}

fn plan(alloc: Global, query: &Query) -> Result<Option<JoinPlan>, NoMemory>
    ensures { IfOk result (λ found. IfSome found (λ plan. IsJoinPlan query.now plan)) }
{
    match query {
        Query::Join {
            kind,
            left,
            right,
            condition,
            subs,
        } => {
            if subs.is_empty() {
                return plan_of(alloc, *kind, left.get(), right.get(), condition);
            }
            Ok(None)
        }
        _ => Ok(None),
    }
}

/// The plan for a join without sublinks.
fn plan_of(
    alloc: Global,
    kind: JoinKind,
    left: &Query,
    right: &Query,
    condition: &Expr,
) -> Result<Option<JoinPlan>, NoMemory>
    ensures { IfOk result (λ found. IfSome found (λ plan.
        IsJoinPlan (Join kind left.now right.now condition.now []) plan)) }
{
    let (lefts, rights) = both(side_of(alloc, left), side_of(alloc, right))?;
    if !lefts.input && !rights.input {
        return Ok(None);
    }
    let order = pair_places(alloc, &lefts, &rights)?;
    let condition = moved(alloc, condition, order.as_slice())?;
    Ok(Some(JoinPlan {
        kind,
        left: lefts.input,
        right: rights.input,
        order,
        condition,
    }))
}

/// The places of the columns of pairs.
fn pair_places(alloc: Global, lefts: &Side, rights: &Side) -> Result<List<usize>, NoMemory>
    ensures { IfOk result (λ order.
        order ≡ pair_places lefts.now.places lefts.now.width rights.now.places) }
{
    let mut order = List::copy_of(alloc, lefts.places.as_slice())?;
    order.append(shifted(alloc, lefts.width, rights.places.as_slice())?)?;
    Ok(order)
}

/// The places, behind so many others.
fn shifted(alloc: Global, width: usize, places: &[usize]) -> Result<List<usize>, NoMemory>
    ensures { IfOk result (λ made. made ≡ map (λ place. width + place) places.now) }
{
    let mut made = List::new(alloc);
    for place in places {
        made.push(sum(width, *place)?)?;
    }
    Ok(made)
}

/// The projection over the join.
fn lowered(alloc: Global, query: Query, plan: JoinPlan) -> Result<Query, NoMemory>
    requires { IsJoinPlan query plan }
    ensures { (q : Query) → Stands q query → IfOk result (λ p. Stands q p) }
{
    let (left, right) = joined(query);
    let left = under(left, plan.left);
    let right = under(right, plan.right);
    let pairs = join_on(alloc, plan.kind, left, right, plan.condition)?;
    regroup(alloc, pairs, plan.order.as_slice())
}

/// The sides of a join.
fn joined(query: Query) -> (Query, Query)
    ensures { (kind : JoinKind) (left right : Query) (condition : Expr) →
        query ≡ Join kind left right condition [] → result ≡ (left, right) }
{
    match query.into_join() {
        Ok(JoinParts { left, right, .. }) => (left, right),
        Err(other) => (other, Query::Single),
    }
}
