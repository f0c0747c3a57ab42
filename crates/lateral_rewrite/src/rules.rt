//! The rules of Filters, Projects and joins with sublinks over any source.
ghost use Rattle.std.specs.Prelude.{◌≡◌, All, IfOk, length};
ghost use Rattle.bag_algebra.specs.Kinds.{width_of};
ghost use Rattle.bag_algebra.specs.Rewriting.{IsRewrite};
ghost use Rattle.bag_algebra.specs.declared.query.Query.TheVariants.{Filter, Join, Project};
ghost use Rattle.query_laws.specs.Standing.{SubsStand};
ghost use Rattle.rewrite_core.specs.rewritings.OpenSublinks.{IsClosedSublink, NoOpenSublink};
ghost use Rattle.rewrite_sublink.specs.Candidates.{answer_columns, beside_row};
ghost use Rattle.rewrite_sublink.specs.SubRewritings.{SubsRewritten};
ghost use Rattle.lateral_rewrite.specs.Dependent.{all_contributed};

use crate::contributions::with_contributions;
use bag_algebra::{Expr, Item, JoinKind, Query, Sublink, exact_width};
use perm_values::{List, NoMemory};
use rewrite_sublink::{Crossed, answer_columns, every_pair, over_pairs, own_items, own_rows};
use std::alloc::Global;

/// A rewriting of the input's rows on which the condition is true, where sublinks of any kind, over any source, stand in it:
/// the condition over the input's rewriting, and then for each sublink in turn the provenance of the rows that contribute,
/// under each row. `standing` has for each sublink a plain one that stands for it, and `sub_rewritings` a rewriting of each
/// sublink's query, in their order. It fails only for want of memory.
pub fn filter_lateral(
    alloc: Global,
    input: &Query,
    rewriting: Query,
    condition: &Expr,
    subs: &[Sublink],
    standing: &[Sublink],
    sub_rewritings: List<Query>,
) -> Result<Query, NoMemory>
    requires input { IsRewrite input.now rewriting }
    requires standing { SubsStand subs.now standing.now }
    requires rewritten { SubsRewritten subs.now sub_rewritings }
    ensures rewrites { IfOk result (λ p. IsRewrite (Filter input.now condition.now subs.now) p) }
    ensures none_open { IfOk result (λ p. NoOpenSublink rewriting → All IsClosedSublink standing.now →
        All NoOpenSublink sub_rewritings → NoOpenSublink p) }
{
    let rows = own_rows(alloc, rewriting, condition, standing)?;
    with_contributions(alloc, rows, standing, sub_rewritings.as_slice())
}

/// A rewriting of what the items make of the input's rows, where sublinks of any kind, over any source, stand in them: the
/// items over the input's rewriting, and then for each sublink in turn the provenance of the rows that contribute, under
/// each row. `standing` has for each sublink a plain one that stands for it, and `sub_rewritings` a rewriting of each
/// sublink's query, in their order. It fails only for want of memory.
pub fn project_lateral(
    alloc: Global,
    input: &Query,
    rewriting: Query,
    items: &[Item],
    subs: &[Sublink],
    standing: &[Sublink],
    sub_rewritings: List<Query>,
) -> Result<Query, NoMemory>
    requires input { IsRewrite input.now rewriting }
    requires standing { SubsStand subs.now standing.now }
    requires rewritten { SubsRewritten subs.now sub_rewritings }
    ensures rewrites { IfOk result (λ p. IsRewrite (Project input.now items.now subs.now) p) }
    ensures none_open { IfOk result (λ p. NoOpenSublink rewriting → All IsClosedSublink standing.now →
        All NoOpenSublink sub_rewritings → NoOpenSublink p) }
{
    let rewritings = sub_rewritings.as_slice();
    items_with(alloc, input, rewriting, items, standing, rewritings)
}

/// A rewriting of a join of any kind, where sublinks of any kind, over any source, stand in its condition: the pairs of all rows
/// of both sides on which the condition is true, as `filter_lateral` rewrites them, and the rows of a kept side that stand in
/// none of them, beside NULLs for the other side and for the sublinks. `standing` has for each sublink a plain one that stands
/// for it, and `sub_rewritings` a rewriting of each sublink's query, in their order. It fails only for want of memory.
pub fn join_lateral(
    alloc: Global,
    kind: JoinKind,
    left: &Query,
    left_rewriting: Query,
    right: &Query,
    right_rewriting: Query,
    condition: &Expr,
    subs: &[Sublink],
    standing: &[Sublink],
    sub_rewritings: List<Query>,
) -> Result<Query, NoMemory>
    requires left { IsRewrite left.now left_rewriting }
    requires right { IsRewrite right.now right_rewriting }
    requires standing { SubsStand subs.now standing.now }
    requires rewritten { SubsRewritten subs.now sub_rewritings }
    ensures rewrites { IfOk result (λ p. IsRewrite (Join kind left.now right.now condition.now subs.now) p) }
    ensures none_open { IfOk result (λ p. NoOpenSublink left_rewriting → NoOpenSublink right_rewriting →
        All IsClosedSublink standing.now → All NoOpenSublink sub_rewritings → NoOpenSublink p) }
{
    let Ok(crossed) = every_pair(alloc, left, &left_rewriting, right, &right_rewriting) else {
        drop(left_rewriting);
        drop(right_rewriting);
        drop(sub_rewritings);
        return Err(NoMemory);
    };
    let Crossed { pairs, rewriting } = crossed;
    let met = filter_lateral(
        alloc,
        &pairs,
        rewriting,
        condition,
        subs,
        standing,
        sub_rewritings,
    );
    drop(pairs);
    over_pairs(
        alloc,
        kind,
        left,
        left_rewriting,
        right,
        right_rewriting,
        met,
    )
}

/// The items over the rewriting, beside its provenance and what the sublinks contribute.
fn items_with(
    alloc: Global,
    input: &Query,
    rewriting: Query,
    items: &[Item],
    standing: &[Sublink],
    rewritings: &[Query],
) -> Result<Query, NoMemory>
    requires rewritten { length standing.now ≡ length rewritings.now }
    ensures { IfOk result (λ p. p ≡
        answer_columns
        (all_contributed (Project rewriting (beside_row rewriting items.now) standing.now)
        standing.now rewritings.now)
        (width_of input.now) (width_of rewriting) (length items.now)) }
{
    let Ok(own) = exact_width(input) else {
        drop(rewriting);
        return Err(NoMemory);
    };
    let Ok(row) = exact_width(&rewriting) else {
        drop(rewriting);
        return Err(NoMemory);
    };
    let rows = own_items(alloc, rewriting, items, standing)?;
    let whole = with_contributions(alloc, rows, standing, rewritings)?;
    answer_columns(alloc, whole, own, row, items.len())
}
