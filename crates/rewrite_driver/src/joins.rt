//! The rule of joins with sublinks in their condition.
ghost use Rattle.std.specs.Prelude.{All, IfOk};
ghost use Rattle.bag_algebra.specs.Rewriting.{IsRewrite};
ghost use Rattle.bag_algebra.specs.declared.query.Query.TheVariants.{Join};
ghost use Rattle.query_laws.specs.Standing.{SubsStand};
ghost use Rattle.rewrite_core.specs.rewritings.OpenSublinks.{IsClosedSublink, NoOpenSublink};
ghost use Rattle.rewrite_move.specs.Moved.{SubsTraced};

use bag_algebra::{Expr, JoinKind, Query, Sublink};
use lateral_rewrite::join_lateral;
use perm_values::{List, NoMemory};
use rewrite_move::{all_dependent, filter_traced};
use rewrite_sublink::{Crossed, every_pair, over_pairs};
use std::alloc::Global;

/// A rewriting of a Join with sublinks, by the rule of dependent joins where each sublink has one anyway. It fails only for want of
/// memory.
pub(crate) fn join_traced(
    alloc: Global,
    kind: JoinKind,
    left: &Query,
    lefts: Query,
    right: &Query,
    rights: Query,
    condition: &Expr,
    subs: &[Sublink],
    standing: &[Sublink],
    rewritings: List<Query>,
) -> Result<Query, NoMemory>
    requires left { IsRewrite left.now lefts }
    requires right { IsRewrite right.now rights }
    requires subs_stand { SubsStand subs.now standing.now }
    requires subs_rewritten { SubsTraced subs.now rewritings }
    ensures rewrites { IfOk result (λ p. IsRewrite (Join kind left.now right.now condition.now subs.now) p) }
    ensures none_open { IfOk result (λ p. NoOpenSublink lefts → NoOpenSublink rights →
        All IsClosedSublink standing.now → All NoOpenSublink rewritings → NoOpenSublink p) }
{
    let dependent = all_dependent(alloc, condition, subs, rewritings.as_slice())?;
    if dependent {
        return join_lateral(
            alloc, kind, left, lefts, right, rights, condition, subs, standing, rewritings,
        );
    }
    join_moved(
        alloc, kind, left, lefts, right, rights, condition, subs, standing, rewritings,
    )
}

/// A rewriting of a Join with sublinks: the pairs that meet its condition are a Filter over all pairs, and the rows without a
/// partner stand beside NULLs. It fails only for want of memory.
fn join_moved(
    alloc: Global,
    kind: JoinKind,
    left: &Query,
    lefts: Query,
    right: &Query,
    rights: Query,
    condition: &Expr,
    subs: &[Sublink],
    standing: &[Sublink],
    rewritings: List<Query>,
) -> Result<Query, NoMemory>
    requires left { IsRewrite left.now lefts }
    requires right { IsRewrite right.now rights }
    requires subs_stand { SubsStand subs.now standing.now }
    requires subs_rewritten { SubsTraced subs.now rewritings }
    ensures rewrites { IfOk result (λ p. IsRewrite (Join kind left.now right.now condition.now subs.now) p) }
    ensures none_open { IfOk result (λ p. NoOpenSublink lefts → NoOpenSublink rights →
        All IsClosedSublink standing.now → All NoOpenSublink rewritings → NoOpenSublink p) }
{
    let Ok(crossed) = every_pair(alloc, left, &lefts, right, &rights) else {
        drop(lefts);
        drop(rights);
        drop(rewritings);
        return Err(NoMemory);
    };
    let Crossed { pairs, rewriting } = crossed;
    let met = filter_traced(
        alloc, &pairs, rewriting, condition, subs, standing, rewritings,
    );
    drop(pairs);
    over_pairs(alloc, kind, left, lefts, right, rights, met)
}
