//! The rules of Filters and Projects with sublinks, by joins with what contributes.
ghost use Rattle.std.specs.Prelude.{All, IfOk};
ghost use Rattle.bag_algebra.specs.Rewriting.{IsRewrite};
ghost use Rattle.bag_algebra.specs.declared.query.Query.TheVariants.{Filter, Project};
ghost use Rattle.query_laws.specs.Standing.{SubsStand};
ghost use Rattle.rewrite_core.specs.rewritings.OpenSublinks.{IsClosedSublink, NoOpenSublink};
ghost use Rattle.rewrite_move.specs.Moved.{SubsFrom, SubsTraced};
ghost use Rattle.rewrite_sublink.specs.SubRewritings.{SubsRewritten};

use crate::below::Origin;
use crate::contributions::{with_all_contributions, with_contributions};
use bag_algebra::{Expr, Item, Query, Sublink, exact_width};
use perm_values::{List, NoMemory};
use rewrite_sublink::{answer_columns, own_items, own_rows};
use std::alloc::Global;

/// A rewriting of the input's rows on which the condition is true, where sublinks of any kind, over any source, stand in it: the
/// condition over the input's rewriting, and then for each sublink in turn the provenance of what contributes, by an ordinary join
/// where that serves and else under each row. Where the condition forces a truth on a sublink, that says what contributes: of a true
/// ANY the rows that compare so, and of a false EXISTS none. `standing` has for each sublink a plain one that stands for it, and
/// `sub_rewritings` a rewriting of each sublink's query, in their order. It fails only for want of memory.
pub fn filter_moved(
    alloc: Global,
    input: &Query,
    rewriting: Query,
    condition: &Expr,
    subs: &[Sublink],
    standing: &[Sublink],
    sub_rewritings: List<Query>,
) -> Result<Query, NoMemory>
    requires input { IsRewrite input.now rewriting }
    requires standing { SubsStand subs.now standing.now }
    requires rewritten { SubsRewritten subs.now sub_rewritings }
    ensures rewrites { IfOk result (λ p. IsRewrite (Filter input.now condition.now subs.now) p) }
    ensures none_open { IfOk result (λ p. NoOpenSublink rewriting → All IsClosedSublink standing.now →
        All NoOpenSublink sub_rewritings → NoOpenSublink p) }
{
    filter_from(
        alloc,
        Origin::Own,
        input,
        rewriting,
        condition,
        subs,
        standing,
        sub_rewritings,
    )
}

/// Likewise, where `sub_rewritings` has a rewriting of what is traced for each sublink (`traced`).
pub fn filter_traced(
    alloc: Global,
    input: &Query,
    rewriting: Query,
    condition: &Expr,
    subs: &[Sublink],
    standing: &[Sublink],
    sub_rewritings: List<Query>,
) -> Result<Query, NoMemory>
    requires input { IsRewrite input.now rewriting }
    requires standing { SubsStand subs.now standing.now }
    requires traced { SubsTraced subs.now sub_rewritings }
    ensures rewrites { IfOk result (λ p. IsRewrite (Filter input.now condition.now subs.now) p) }
    ensures none_open { IfOk result (λ p. NoOpenSublink rewriting → All IsClosedSublink standing.now →
        All NoOpenSublink sub_rewritings → NoOpenSublink p) }
{
    filter_from(
        alloc,
        Origin::Traced,
        input,
        rewriting,
        condition,
        subs,
        standing,
        sub_rewritings,
    )
}

fn filter_from(
    alloc: Global,
    origin: Origin,
    input: &Query,
    rewriting: Query,
    condition: &Expr,
    subs: &[Sublink],
    standing: &[Sublink],
    sub_rewritings: List<Query>,
) -> Result<Query, NoMemory>
    requires input { IsRewrite input.now rewriting }
    requires standing { SubsStand subs.now standing.now }
    requires given { SubsFrom origin subs.now sub_rewritings }
    ensures rewrites { IfOk result (λ p. IsRewrite (Filter input.now condition.now subs.now) p) }
    ensures none_open { IfOk result (λ p. NoOpenSublink rewriting → All IsClosedSublink standing.now →
        All NoOpenSublink sub_rewritings → NoOpenSublink p) }
{
    let rows = own_rows(alloc, rewriting, condition, standing)?;
    with_contributions(
        alloc,
        origin,
        rows,
        condition,
        subs,
        standing,
        sub_rewritings.as_slice(),
    )
}

/// A rewriting of what the items make of the input's rows, where sublinks of any kind, over any source, stand in them: the items over
/// the input's rewriting, and then for each sublink in turn the provenance of what contributes, likewise. `sub_rewritings` has a
/// rewriting of each sublink's query. It fails only for want of memory.
pub fn project_moved(
    alloc: Global,
    input: &Query,
    rewriting: Query,
    items: &[Item],
    subs: &[Sublink],
    standing: &[Sublink],
    sub_rewritings: List<Query>,
) -> Result<Query, NoMemory>
    requires input { IsRewrite input.now rewriting }
    requires standing { SubsStand subs.now standing.now }
    requires rewritten { SubsRewritten subs.now sub_rewritings }
    ensures rewrites { IfOk result (λ p. IsRewrite (Project input.now items.now subs.now) p) }
    ensures none_open { IfOk result (λ p. NoOpenSublink rewriting → All IsClosedSublink standing.now →
        All NoOpenSublink sub_rewritings → NoOpenSublink p) }
{
    project_from(
        alloc,
        Origin::Own,
        input,
        rewriting,
        items,
        subs,
        standing,
        sub_rewritings,
    )
}

/// Likewise, where `sub_rewritings` has a rewriting of what is traced for each sublink (`traced`).
pub fn project_traced(
    alloc: Global,
    input: &Query,
    rewriting: Query,
    items: &[Item],
    subs: &[Sublink],
    standing: &[Sublink],
    sub_rewritings: List<Query>,
) -> Result<Query, NoMemory>
    requires input { IsRewrite input.now rewriting }
    requires standing { SubsStand subs.now standing.now }
    requires traced { SubsTraced subs.now sub_rewritings }
    ensures rewrites { IfOk result (λ p. IsRewrite (Project input.now items.now subs.now) p) }
    ensures none_open { IfOk result (λ p. NoOpenSublink rewriting → All IsClosedSublink standing.now →
        All NoOpenSublink sub_rewritings → NoOpenSublink p) }
{
    project_from(
        alloc,
        Origin::Traced,
        input,
        rewriting,
        items,
        subs,
        standing,
        sub_rewritings,
    )
}

fn project_from(
    alloc: Global,
    origin: Origin,
    input: &Query,
    rewriting: Query,
    items: &[Item],
    subs: &[Sublink],
    standing: &[Sublink],
    sub_rewritings: List<Query>,
) -> Result<Query, NoMemory>
    requires input { IsRewrite input.now rewriting }
    requires standing { SubsStand subs.now standing.now }
    requires given { SubsFrom origin subs.now sub_rewritings }
    ensures rewrites { IfOk result (λ p. IsRewrite (Project input.now items.now subs.now) p) }
    ensures none_open { IfOk result (λ p. NoOpenSublink rewriting → All IsClosedSublink standing.now →
        All NoOpenSublink sub_rewritings → NoOpenSublink p) }
{
    let Ok(own) = exact_width(input) else {
        drop(rewriting);
        return Err(NoMemory);
    };
    let Ok(row) = exact_width(&rewriting) else {
        drop(rewriting);
        return Err(NoMemory);
    };
    let rows = own_items(alloc, rewriting, items, standing)?;
    let whole = with_all_contributions(
        alloc,
        origin,
        rows,
        subs,
        standing,
        sub_rewritings.as_slice(),
    )?;
    answer_columns(alloc, whole, own, row, items.len())
}
