//! The rules of nodes over the results of the calls that make what they take.
ghost use Rattle.std.specs.Prelude.{◌≡◌, [], Err, IfErr, IfOk, IsTrue};
ghost use Rattle.bag_algebra.specs.declared.query.Label.{Label};
ghost use Rattle.bag_algebra.specs.declared.query.Query.TheVariants.{Base, Filter, Project, Join, Apply, Union, Intersect, Except, Distinct, Aggregate, Limit};
ghost use Rattle.bag_algebra.specs.declared.query.Query.{Query};
ghost use Rattle.rewrite_driver.specs.KeptClosed.{RewritesClosed, StandsClosed, SubsStandClosed, SubsTracedClosed};

use crate::joins::join_traced;
use bag_algebra::{Aggr, Expr, Item, JoinKind, Query, Sublink};
use lateral_rewrite::apply;
use perm_values::{Key, List, NoMemory, both, four, three};
use rewrite_core::{
    aggregate, base, distinct, except, filter, intersect, join, limit, project, union_of,
};
use rewrite_move::{filter_traced, project_traced};
use std::alloc::Global;

/// A rewriting of a source whose input this stands for. It fails where that failed, and for want of memory.
pub(crate) fn base_rule(
    alloc: Global,
    plain: Result<Query, NoMemory>,
    places: &[usize],
) -> Result<Query, NoMemory>
    ensures { (q : Query) (label : Label) → IfOk plain (λ b. StandsClosed q b) →
        IfOk result (λ p. RewritesClosed (Base q places.now label) p) }
{
    let plain = plain?;
    base(alloc, plain, places)
}

/// A rewriting of a Filter, of a rewriting of its input, what stands for its sublinks and rewritings of their queries. It fails where
/// one of these failed, and for want of memory.
pub(crate) fn filter_rule(
    alloc: Global,
    input: &Query,
    rewriting: Result<Query, NoMemory>,
    condition: &Expr,
    subs: &[Sublink],
    plain: Result<List<Sublink>, NoMemory>,
    rewritings: Result<List<Query>, NoMemory>,
) -> Result<Query, NoMemory>
    requires rewritten { IfOk rewriting (λ r. RewritesClosed input.now r) }
    requires subs_stand { IfOk plain (λ others. SubsStandClosed subs.now others) }
    requires subs_rewritten { IfOk rewritings (λ rs. SubsTracedClosed subs.now rs) }
    ensures { IfOk result (λ p. RewritesClosed (Filter input.now condition.now subs.now) p) }
{
    let (rewriting, plain, rewritings) = three(rewriting, plain, rewritings)?;
    if subs.is_empty() {
        return filter(alloc, input, rewriting, condition);
    }
    filter_traced(
        alloc,
        input,
        rewriting,
        condition,
        subs,
        plain.as_slice(),
        rewritings,
    )
}

/// A rewriting of a Project, of a rewriting of its input, what stands for its sublinks and rewritings of their queries. It fails where
/// one of these failed, and for want of memory.
pub(crate) fn project_rule(
    alloc: Global,
    input: &Query,
    rewriting: Result<Query, NoMemory>,
    items: &[Item],
    subs: &[Sublink],
    plain: Result<List<Sublink>, NoMemory>,
    rewritings: Result<List<Query>, NoMemory>,
) -> Result<Query, NoMemory>
    requires rewritten { IfOk rewriting (λ r. RewritesClosed input.now r) }
    requires subs_stand { IfOk plain (λ others. SubsStandClosed subs.now others) }
    requires subs_rewritten { IfOk rewritings (λ rs. SubsTracedClosed subs.now rs) }
    ensures { IfOk result (λ p. RewritesClosed (Project input.now items.now subs.now) p) }
{
    let (rewriting, plain, rewritings) = three(rewriting, plain, rewritings)?;
    if subs.is_empty() {
        return project(alloc, input, rewriting, items);
    }
    project_traced(
        alloc,
        input,
        rewriting,
        items,
        subs,
        plain.as_slice(),
        rewritings,
    )
}

/// A rewriting of a Join, of rewritings of its inputs, what stands for its sublinks and rewritings of what is traced of them. It
/// fails where one of these failed, and for want of memory.
pub(crate) fn join_rule(
    alloc: Global,
    kind: JoinKind,
    left: &Query,
    lefts: Result<Query, NoMemory>,
    right: &Query,
    rights: Result<Query, NoMemory>,
    condition: &Expr,
    subs: &[Sublink],
    plain: Result<List<Sublink>, NoMemory>,
    rewritings: Result<List<Query>, NoMemory>,
) -> Result<Query, NoMemory>
    requires left { IfOk lefts (λ r. RewritesClosed left.now r) }
    requires right { IfOk rights (λ r. RewritesClosed right.now r) }
    requires subs_stand { IfOk plain (λ others. SubsStandClosed subs.now others) }
    requires subs_rewritten { IfOk rewritings (λ rs. SubsTracedClosed subs.now rs) }
    ensures { IfOk result (λ p. RewritesClosed (Join kind left.now right.now condition.now subs.now) p) }
{
    let (lefts, rights, plain, rewritings) = four(lefts, rights, plain, rewritings)?;
    if subs.is_empty() {
        return join(alloc, kind, left, lefts, right, rights, condition);
    }
    join_traced(
        alloc,
        kind,
        left,
        lefts,
        right,
        rights,
        condition,
        subs,
        plain.as_slice(),
        rewritings,
    )
}

/// A rewriting of a dependent join, of rewritings of its sides. It fails where one of these failed, and for want of memory.
pub(crate) fn apply_rule(
    alloc: Global,
    kind: JoinKind,
    left: &Query,
    lefts: Result<Query, NoMemory>,
    right: &Query,
    rights: Result<Query, NoMemory>,
) -> Result<Query, NoMemory>
    requires left { IfOk lefts (λ r. RewritesClosed left.now r) }
    requires right { IfOk rights (λ r. RewritesClosed right.now r) }
    ensures { IfOk result (λ p. RewritesClosed (Apply kind left.now right.now) p) }
{
    let (lefts, rights) = both(lefts, rights)?;
    apply(alloc, kind, left, lefts, right, rights)
}

/// A rewriting of a UNION, of rewritings of its inputs. It fails where one of these failed, and for want of memory.
pub(crate) fn union_rule(
    alloc: Global,
    all: bool,
    left: &Query,
    lefts: Result<Query, NoMemory>,
    right: &Query,
    rights: Result<Query, NoMemory>,
) -> Result<Query, NoMemory>
    requires left { IfOk lefts (λ r. RewritesClosed left.now r) }
    requires right { IfOk rights (λ r. RewritesClosed right.now r) }
    ensures { IfOk result (λ p. RewritesClosed (Union all left.now right.now) p) }
{
    let (lefts, rights) = both(lefts, rights)?;
    union_of(alloc, all, left, lefts, right, rights)
}

/// A rewriting of an INTERSECT, of rewritings of its inputs. It fails where one of these failed, and for want of memory.
pub(crate) fn intersect_rule(
    alloc: Global,
    all: bool,
    left: &Query,
    lefts: Result<Query, NoMemory>,
    right: &Query,
    rights: Result<Query, NoMemory>,
) -> Result<Query, NoMemory>
    ensures { IfOk lefts (λ r. RewritesClosed left.now r) → IfOk rights (λ r. RewritesClosed right.now r) →
        IfOk result (λ p. RewritesClosed (Intersect all left.now right.now) p) }
{
    let (lefts, rights) = both(lefts, rights)?;
    intersect(alloc, all, left, lefts, right, rights)
}

/// A rewriting of an EXCEPT, of what stands for its inputs and of rewritings of them. It fails where one of these failed, and for
/// want of memory.
pub(crate) fn except_rule(
    alloc: Global,
    all: bool,
    left: Result<Query, NoMemory>,
    lefts: Result<Query, NoMemory>,
    right: Result<Query, NoMemory>,
    rights: Result<Query, NoMemory>,
) -> Result<Query, NoMemory>
    ensures { (q r : Query) → IfOk left (λ b. StandsClosed q b) → IfOk lefts (λ p. RewritesClosed q p) →
        IfOk right (λ d. StandsClosed r d) → IfOk rights (λ p. RewritesClosed r p) →
        IfOk result (λ p. RewritesClosed (Except all q r) p) }
{
    let (left, lefts, right, rights) = four(left, lefts, right, rights)?;
    except(alloc, all, left, lefts, right, rights)
}

/// A rewriting of a DISTINCT, which is one of its input. It fails where that failed.
pub(crate) fn distinct_rule(
    input: &Query,
    rewriting: Result<Query, NoMemory>,
) -> Result<Query, NoMemory>
    requires { IfOk rewriting (λ r. RewritesClosed input.now r) }
    ensures rewrites { IfOk result (λ p. RewritesClosed (Distinct input.now) p) }
    ensures lacking { IfErr result (λ lack. rewriting ≡ Err lack) }
{
    let rewriting = rewriting?;
    distinct(input, rewriting)
}

/// A rewriting of an Aggregate, of what stands for its input and of a rewriting of it. It fails where one of these failed, and for want of
/// memory.
pub(crate) fn aggregate_rule(
    alloc: Global,
    plain: Result<Query, NoMemory>,
    rewriting: Result<Query, NoMemory>,
    groups: &[usize],
    aggregates: &[Aggr],
) -> Result<Query, NoMemory>
    ensures { (q : Query) → IfOk plain (λ b. StandsClosed q b) → IfOk rewriting (λ r. RewritesClosed q r) →
        IfOk result (λ p. RewritesClosed (Aggregate q groups.now aggregates.now) p) }
{
    let (plain, rewriting) = both(plain, rewriting)?;
    aggregate(alloc, plain, rewriting, groups, aggregates)
}

/// A rewriting of a LIMIT, of what stands for its input and of a rewriting of it. It fails where one of these failed, and for want of
/// memory.
pub(crate) fn limit_rule(
    alloc: Global,
    plain: Result<Query, NoMemory>,
    rewriting: Result<Query, NoMemory>,
    keys: &[Key],
    count: u64,
) -> Result<Query, NoMemory>
    ensures { (q : Query) → IfOk plain (λ b. StandsClosed q b) → IfOk rewriting (λ r. RewritesClosed q r) →
        IfOk result (λ p. RewritesClosed (Limit q keys.now count) p) }
{
    let (plain, rewriting) = both(plain, rewriting)?;
    limit(alloc, plain, rewriting, keys, count)
}
