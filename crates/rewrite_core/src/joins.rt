//! The rule of joins.
ghost use Rattle.std.specs.Prelude.{◌≡◌, ◌++◌, [], IfOk};
ghost use Rattle.bag_algebra.specs.Kinds.{width_of};
ghost use Rattle.bag_algebra.specs.Rewriting.{IsRewrite};
ghost use Rattle.bag_algebra.specs.declared.query.Query.TheVariants.{Join};
ghost use Rattle.bag_algebra.specs.declared.query.Query.{Query};
ghost use Rattle.contribution.specs.MovedColumns.{IsMoved};
ghost use Rattle.rewrite_core.specs.rewritings.OpenSublinks.{NoOpenSublink};
ghost use Rattle.rewrite_core.specs.JoinColumns.{own_places, added_places, IsPaired, IsLaidOut};

use crate::columns::with_columns;
use crate::rewritings::sum;
use bag_algebra::{Expr, JoinKind, Query, exact_width};
use contribution::{join_on, moved};
use perm_values::{List, NoMemory};
use std::alloc::Global;

/// A rewriting of a join of any kind on a condition without sublinks: that join of the rewritings, on the condition with its
/// columns at their places there, and then the columns of the join before those of provenance, the left ones first. It
/// fails only for want of memory.
pub fn join(
    alloc: Global,
    kind: JoinKind,
    left: &Query,
    left_rewriting: Query,
    right: &Query,
    right_rewriting: Query,
    condition: &Expr,
) -> Result<Query, NoMemory>
    requires left { IsRewrite left.now left_rewriting }
    requires right { IsRewrite right.now right_rewriting }
    ensures rewrites { IfOk result (λ p. IsRewrite (Join kind left.now right.now condition.now []) p) }
    ensures none_open { IfOk result (λ p. NoOpenSublink left_rewriting → NoOpenSublink right_rewriting →
        NoOpenSublink p) }
{
    let Ok(order) = all_columns(alloc, left, &left_rewriting, right, &right_rewriting) else {
        drop(left_rewriting);
        drop(right_rewriting);
        return Err(NoMemory);
    };
    laid_out(
        alloc,
        kind,
        left,
        left_rewriting,
        right,
        right_rewriting,
        condition,
        order.as_slice(),
    )
}

/// What the join of the rewritings with its columns in that order is a rewriting of, this is too.
fn laid_out(
    alloc: Global,
    kind: JoinKind,
    left: &Query,
    left_rewriting: Query,
    right: &Query,
    right_rewriting: Query,
    condition: &Expr,
    order: &[usize],
) -> Result<Query, NoMemory>
    ensures laid { IfOk result (λ p. (q : Query) → ((whole : Query) →
        IsLaidOut kind left.now left_rewriting right.now right_rewriting condition.now order.now whole →
        IsRewrite q whole) → IsRewrite q p) }
    ensures none_open { IfOk result (λ p. NoOpenSublink left_rewriting → NoOpenSublink right_rewriting →
        NoOpenSublink p) }
{
    let pairs = paired(
        alloc,
        kind,
        left,
        left_rewriting,
        right,
        right_rewriting,
        condition,
    )?;
    with_columns(alloc, pairs, order)
}

/// The join of the rewritings on the condition over their columns.
fn paired(
    alloc: Global,
    kind: JoinKind,
    left: &Query,
    left_rewriting: Query,
    right: &Query,
    right_rewriting: Query,
    condition: &Expr,
) -> Result<Query, NoMemory>
    ensures { IfOk result (λ p.
        IsPaired kind left.now left_rewriting right.now right_rewriting condition.now p) }
{
    let Ok(condition) = over_rewritings(alloc, left, &left_rewriting, right, condition) else {
        drop(left_rewriting);
        drop(right_rewriting);
        return Err(NoMemory);
    };
    join_on(alloc, kind, left_rewriting, right_rewriting, condition)
}

/// The condition on the columns of the inputs, where they stand in the pairs of rows of the rewritings.
fn over_rewritings(
    alloc: Global,
    left: &Query,
    left_rewriting: &Query,
    right: &Query,
    condition: &Expr,
) -> Result<Expr, NoMemory>
    ensures { IfOk result (λ made.
        IsMoved (own_places (width_of left.now) (width_of left_rewriting.now) (width_of right.now))
        condition.now made) }
{
    let own = own_columns(alloc, left, left_rewriting, right)?;
    moved(alloc, condition, own.as_slice())
}

/// The places of the columns of the inputs in the pairs of rows of the rewritings.
fn own_columns(
    alloc: Global,
    left: &Query,
    left_rewriting: &Query,
    right: &Query,
) -> Result<List<usize>, NoMemory>
    ensures { IfOk result (λ order.
        order ≡ own_places (width_of left.now) (width_of left_rewriting.now) (width_of right.now)) }
{
    let mut order = List::range(alloc, 0, exact_width(left)?)?;
    let start = exact_width(left_rewriting)?;
    order.append(List::range(alloc, start, exact_width(right)?)?)?;
    Ok(order)
}

/// The places of the columns of the inputs, and then of those of provenance.
fn all_columns(
    alloc: Global,
    left: &Query,
    left_rewriting: &Query,
    right: &Query,
    right_rewriting: &Query,
) -> Result<List<usize>, NoMemory>
    ensures { IfOk result (λ order. order ≡
        own_places (width_of left.now) (width_of left_rewriting.now) (width_of right.now)
        ++ added_places (width_of left.now) (width_of left_rewriting.now) (width_of right.now)
        (width_of right_rewriting.now)) }
{
    let mut order = own_columns(alloc, left, left_rewriting, right)?;
    order.append(added_columns(alloc, left, left_rewriting, right, right_rewriting)?)?;
    Ok(order)
}

/// The places of the columns of provenance in the pairs of rows of the rewritings.
fn added_columns(
    alloc: Global,
    left: &Query,
    left_rewriting: &Query,
    right: &Query,
    right_rewriting: &Query,
) -> Result<List<usize>, NoMemory>
    ensures { IfOk result (λ order. order ≡ added_places (width_of left.now) (width_of left_rewriting.now)
        (width_of right.now) (width_of right_rewriting.now)) }
{
    let left_width = exact_width(left)?;
    let left_end = exact_width(left_rewriting)?;
    let right_width = exact_width(right)?;
    let right_end = exact_width(right_rewriting)?;
    let start = sum(left_end, right_width)?;
    let mut order = List::range(alloc, left_width, left_end.saturating_sub(left_width))?;
    order.append(List::range(alloc, start, right_end.saturating_sub(right_width))?)?;
    Ok(order)
}
