//! A join of any kind from a rewriting of its pairs.
ghost use Rattle.std.specs.Prelude.{◌≡◌, [], false, List, IfOk};
ghost use Rattle.bag_algebra.specs.Rewriting.{IsRewrite};
ghost use Rattle.bag_algebra.specs.built.Patterns.{UnionOf};
ghost use Rattle.bag_algebra.specs.declared.expr.Expr.{Expr};
ghost use Rattle.bag_algebra.specs.declared.query.JoinKind.TheVariants.{Inner, Left};
ghost use Rattle.bag_algebra.specs.declared.query.Query.TheVariants.{Filter, Join};
ghost use Rattle.bag_algebra.specs.declared.query.Sublink.{Sublink};
ghost use Rattle.contribution.specs.Conjunctions.{always};
ghost use Rattle.rewrite_core.specs.rewritings.OpenSublinks.{NoOpenSublink};
ghost use Rattle.rewrite_sublink.specs.joins.ByParts.{by_parts, marked, with_alone};

use crate::joins::sides::{Side, columns_of_pair, is_part, left_side, right_side};
use bag_algebra::{Expr, JoinKind, Query};
use contribution::{join_on, outwards, regroup};
use perm_values::{Copyable, NoMemory, both};
use std::alloc::Global;

/// A rewriting of a join of any kind, over any rewriting of its pairs, which are all rows of both sides beside one another on
/// which the condition is true: those pairs, and each row of a kept side's rewriting that stands in none of them, beside NULLs
/// for the other side and for what the sublinks contribute. The condition and its sublinks aren't needed again, whatever
/// rewrote them. It fails only for want of memory.
pub fn join_by_parts(
    alloc: Global,
    kind: JoinKind,
    left: &Query,
    left_rewriting: Query,
    right: &Query,
    right_rewriting: Query,
    pairs: Query,
) -> Result<Query, NoMemory>
    requires left { IsRewrite left.now left_rewriting }
    requires right { IsRewrite right.now right_rewriting }
    ensures rewrites { IfOk result (λ p. (condition : Expr) (subs : List Sublink) →
        IsRewrite (Filter (Join Inner left.now right.now always []) condition subs) pairs →
        IsRewrite (Join kind left.now right.now condition subs) p) }
    ensures none_open { IfOk result (λ p. NoOpenSublink left_rewriting → NoOpenSublink right_rewriting →
        NoOpenSublink pairs → NoOpenSublink p) }
{
    by_parts(
        alloc,
        kind,
        left,
        left_rewriting,
        right,
        right_rewriting,
        pairs,
    )
}

fn by_parts(
    alloc: Global,
    kind: JoinKind,
    left: &Query,
    left_rewriting: Query,
    right: &Query,
    right_rewriting: Query,
    pairs: Query,
) -> Result<Query, NoMemory>
    ensures { IfOk result (λ p.
        p ≡ by_parts kind left.now left_rewriting right.now right_rewriting pairs) }
{
    let sides = both(
        left_side(left, &left_rewriting, right, &pairs),
        right_side(left, &left_rewriting, right, &right_rewriting, &pairs),
    );
    let Ok((left_side, right_side)) = sides else {
        drop(left_rewriting);
        drop(right_rewriting);
        drop(pairs);
        return Err(NoMemory);
    };
    match kind {
        JoinKind::Inner => {
            drop(left_rewriting);
            drop(right_rewriting);
            Ok(pairs)
        }
        JoinKind::Left => {
            drop(right_rewriting);
            with_alone(alloc, left_side, left_rewriting, pairs)
        }
        JoinKind::Right => {
            drop(left_rewriting);
            with_alone(alloc, right_side, right_rewriting, pairs)
        }
        JoinKind::Full => with_both_alone(
            alloc,
            left_side,
            left_rewriting,
            right_side,
            right_rewriting,
            pairs,
        ),
    }
}

/// The pairs, with the rows of either side that stand in none of them.
fn with_both_alone(
    alloc: Global,
    left_side: Side,
    left_rewriting: Query,
    right_side: Side,
    right_rewriting: Query,
    pairs: Query,
) -> Result<Query, NoMemory>
    ensures { IfOk result (λ p. p ≡
        UnionOf false (with_alone left_side left_rewriting pairs)
        (with_alone right_side right_rewriting pairs)) }
{
    let Ok(copy) = pairs.copy(alloc) else {
        drop(left_rewriting);
        drop(right_rewriting);
        drop(pairs);
        return Err(NoMemory);
    };
    let Ok(lefts) = with_alone(alloc, left_side, left_rewriting, copy) else {
        drop(right_rewriting);
        drop(pairs);
        return Err(NoMemory);
    };
    let Ok(rights) = with_alone(alloc, right_side, right_rewriting, pairs) else {
        drop(lefts);
        return Err(NoMemory);
    };
    Query::union(alloc, false, lefts, rights)
}

/// The pairs, with the rows of the side that stand in none of them.
fn with_alone(alloc: Global, side: Side, rewriting: Query, pairs: Query) -> Result<Query, NoMemory>
    ensures { IfOk result (λ p. p ≡ with_alone side rewriting pairs) }
{
    let Ok(order) = columns_of_pair(alloc, side) else {
        drop(rewriting);
        drop(pairs);
        return Err(NoMemory);
    };
    let rows = marked(alloc, side, rewriting, pairs)?;
    regroup(alloc, rows, order.as_slice())
}

/// Each row of the side's rewriting, once, beside the pairs that it is a part of.
fn marked(alloc: Global, side: Side, rewriting: Query, pairs: Query) -> Result<Query, NoMemory>
    ensures { IfOk result (λ p. p ≡ marked side rewriting pairs) }
{
    let Ok(test) = is_part(alloc, side) else {
        drop(rewriting);
        drop(pairs);
        return Err(NoMemory);
    };
    let Ok(rows) = Query::distinct(alloc, rewriting) else {
        drop(pairs);
        drop(test);
        return Err(NoMemory);
    };
    // a row that stands in no pair stands beside NULLs
    join_on(alloc, outwards(), rows, pairs, test)
}
