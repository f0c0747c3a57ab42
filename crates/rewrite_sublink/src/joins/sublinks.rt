//! The rule of joins with sublinks in their condition.
ghost use Rattle.std.specs.Prelude.{◌≡◌, [], List, IfOk, IsTrue};
ghost use Rattle.bag_algebra.specs.Rewriting.{IsRewrite};
ghost use Rattle.bag_algebra.specs.built.Scopes.{all_over_tables};
ghost use Rattle.bag_algebra.specs.declared.expr.Expr.{Expr};
ghost use Rattle.bag_algebra.specs.declared.query.JoinKind.TheVariants.{Inner};
ghost use Rattle.bag_algebra.specs.declared.query.Query.TheVariants.{Filter, Join};
ghost use Rattle.bag_algebra.specs.declared.query.Sublink.{Sublink};
ghost use Rattle.contribution.specs.Conjunctions.{always};
ghost use Rattle.query_laws.specs.Standing.{SubsStand};
ghost use Rattle.rewrite_core.specs.rewritings.OpenSublinks.{NoOpenSublink};
ghost use Rattle.rewrite_sublink.specs.SubRewritings.{SubsRewritten};

use crate::joins::parts::join_by_parts;
use crate::rules::filter_with;
use bag_algebra::{Expr, JoinKind, Query, Sublink};
use contribution::{always, inwards};
use perm_values::{Copyable, List, NoMemory, both};
use rewrite_core::join;
use std::alloc::Global;

/// A rewriting of a join of any kind, where sublinks of any kind stand in its condition: the pairs of all rows of both sides
/// on which the condition is true, as `filter_with` rewrites them, and the rows of a kept side that stand in none of them.
/// `standing` has for each sublink a plain one that stands for it, and `sub_rewritings` a rewriting of each sublink's query,
/// in their order. It fails only for want of memory.
pub fn join_with(
    alloc: Global,
    kind: JoinKind,
    left: &Query,
    left_rewriting: Query,
    right: &Query,
    right_rewriting: Query,
    condition: &Expr,
    subs: &[Sublink],
    standing: &[Sublink],
    sub_rewritings: List<Query>,
) -> Result<Query, NoMemory>
    requires over_tables { IsTrue (all_over_tables subs.now) }
    requires left { IsRewrite left.now left_rewriting }
    requires right { IsRewrite right.now right_rewriting }
    requires standing { SubsStand subs.now standing.now }
    requires rewritten { SubsRewritten subs.now sub_rewritings }
    ensures { IfOk result (λ p. IsRewrite (Join kind left.now right.now condition.now subs.now) p) }
{
    let Ok(crossed) = every_pair(alloc, left, &left_rewriting, right, &right_rewriting) else {
        drop(left_rewriting);
        drop(right_rewriting);
        drop(sub_rewritings);
        return Err(NoMemory);
    };
    let Crossed { pairs, rewriting } = crossed;
    let met = filter_with(
        alloc,
        &pairs,
        rewriting,
        condition,
        subs,
        standing,
        sub_rewritings,
    );
    drop(pairs);
    over_pairs(
        alloc,
        kind,
        left,
        left_rewriting,
        right,
        right_rewriting,
        met,
    )
}

/// A rewriting of the join of any kind from that of the pairs on which its condition is true, whatever rewrote these. It fails where that
/// failed, and for want of memory.
pub fn over_pairs(
    alloc: Global,
    kind: JoinKind,
    left: &Query,
    left_rewriting: Query,
    right: &Query,
    right_rewriting: Query,
    met: Result<Query, NoMemory>,
) -> Result<Query, NoMemory>
    requires left { IsRewrite left.now left_rewriting }
    requires right { IsRewrite right.now right_rewriting }
    ensures rewrites { IfOk result (λ p. (condition : Expr) (subs : List Sublink) →
        IfOk met (λ pairs.
        IsRewrite (Filter (Join Inner left.now right.now always []) condition subs) pairs) →
        IsRewrite (Join kind left.now right.now condition subs) p) }
    ensures none_open { IfOk result (λ p. NoOpenSublink left_rewriting → NoOpenSublink right_rewriting →
        IfOk met (λ pairs. NoOpenSublink pairs) → NoOpenSublink p) }
{
    let Ok(pairs) = met else {
        drop(left_rewriting);
        drop(right_rewriting);
        return Err(NoMemory);
    };
    join_by_parts(
        alloc,
        kind,
        left,
        left_rewriting,
        right,
        right_rewriting,
        pairs,
    )
}

/// The pairs of all rows of both sides, and a rewriting of them.
pub struct Crossed {
    pub pairs: Query,
    pub rewriting: Query,
}

/// The pairs of all rows of both sides, of rewritings of these. It fails only for want of memory.
pub fn every_pair(
    alloc: Global,
    left: &Query,
    left_rewriting: &Query,
    right: &Query,
    right_rewriting: &Query,
) -> Result<Crossed, NoMemory>
    requires left { IsRewrite left.now left_rewriting.now }
    requires right { IsRewrite right.now right_rewriting.now }
    ensures pairs { IfOk result (λ crossed. crossed.pairs ≡ Join Inner left.now right.now always []) }
    ensures rewriting { IfOk result (λ crossed.
        IsRewrite (Join Inner left.now right.now always []) crossed.rewriting) }
    ensures none_open { IfOk result (λ crossed. NoOpenSublink left_rewriting.now →
        NoOpenSublink right_rewriting.now → NoOpenSublink crossed.rewriting) }
{
    let pairs = all_pairs(alloc, left, right)?;
    let Ok(rewriting) = pairs_rewritten(alloc, left, left_rewriting, right, right_rewriting) else {
        drop(pairs);
        return Err(NoMemory);
    };
    Ok(Crossed { pairs, rewriting })
}

fn all_pairs(alloc: Global, left: &Query, right: &Query) -> Result<Query, NoMemory>
    ensures { IfOk result (λ p. p ≡ Join Inner left.now right.now always []) }
{
    let (left, right) = both(left.copy(alloc), right.copy(alloc))?;
    Query::join(alloc, inwards(), left, right, always(), List::new(alloc))
}

fn pairs_rewritten(
    alloc: Global,
    left: &Query,
    left_rewriting: &Query,
    right: &Query,
    right_rewriting: &Query,
) -> Result<Query, NoMemory>
    requires left { IsRewrite left.now left_rewriting.now }
    requires right { IsRewrite right.now right_rewriting.now }
    ensures rewrites { IfOk result (λ p. IsRewrite (Join Inner left.now right.now always []) p) }
    ensures none_open { IfOk result (λ p.
        NoOpenSublink left_rewriting.now → NoOpenSublink right_rewriting.now → NoOpenSublink p) }
{
    // the pairs on which the sublinks are evaluated are those of an inner join, whatever the kind: beside candidates a row of a
    // kept side would be unmatched with one and not with another
    let (left_copy, right_copy) = both(left_rewriting.copy(alloc), right_rewriting.copy(alloc))?;
    join(
        alloc,
        inwards(),
        left,
        left_copy,
        right,
        right_copy,
        &always(),
    )
}
