//! The rule of dependent joins.
ghost use Rattle.std.specs.Prelude.{◌≡◌, IfOk};
ghost use Rattle.bag_algebra.specs.Kinds.{width_of};
ghost use Rattle.bag_algebra.specs.Rewriting.{IsRewrite};
ghost use Rattle.bag_algebra.specs.declared.query.Query.TheVariants.{Apply};
ghost use Rattle.rewrite_core.specs.rewritings.OpenSublinks.{NoOpenSublink};
ghost use Rattle.lateral_rewrite.specs.Applied.{regrouped};

use bag_algebra::{JoinKind, Query, exact_width};
use contribution::regroup;
use perm_values::{List, NoMemory};
use rewrite_core::sum;
use std::alloc::Global;

/// A rewriting of a dependent join: the dependent join of the rewritings, and then its columns before those of provenance, the
/// left ones first. It fails only for want of memory.
pub fn apply(
    alloc: Global,
    kind: JoinKind,
    left: &Query,
    left_rewriting: Query,
    right: &Query,
    right_rewriting: Query,
) -> Result<Query, NoMemory>
    requires left { IsRewrite left.now left_rewriting }
    requires right { IsRewrite right.now right_rewriting }
    ensures rewrites { IfOk result (λ p. IsRewrite (Apply kind left.now right.now) p) }
    ensures none_open { IfOk result (λ p. NoOpenSublink left_rewriting → NoOpenSublink right_rewriting →
        NoOpenSublink p) }
{
    let Ok(order) = regrouped(alloc, left, &left_rewriting, right, &right_rewriting) else {
        drop(left_rewriting);
        drop(right_rewriting);
        return Err(NoMemory);
    };
    let pairs = Query::apply(alloc, kind, left_rewriting, right_rewriting)?;
    regroup(alloc, pairs, order.as_slice())
}

/// The places of the columns in the pairs of rows of the rewritings, and then of those of provenance.
fn regrouped(
    alloc: Global,
    left: &Query,
    left_rewriting: &Query,
    right: &Query,
    right_rewriting: &Query,
) -> Result<List<usize>, NoMemory>
    ensures { IfOk result (λ order. order ≡ regrouped (width_of left.now) (width_of left_rewriting.now)
        (width_of right.now) (width_of right_rewriting.now)) }
{
    let own = exact_width(left)?;
    let row = exact_width(left_rewriting)?;
    let right_own = exact_width(right)?;
    let right_row = exact_width(right_rewriting)?;
    let behind = sum(row, right_own)?;
    let mut order = List::range(alloc, 0, own)?;
    order.append(List::range(alloc, row, right_own)?)?;
    let mut added = List::range(alloc, own, row.saturating_sub(own))?;
    added.append(List::range(alloc, behind, right_row.saturating_sub(right_own))?)?;
    order.append(added)?;
    Ok(order)
}
