//! Filters and joins over what stands for their parts, below the projections to columns that these are.
ghost use Rattle.std.specs.Prelude.{[], List, IfOk};
ghost use Rattle.bag_algebra.specs.Rewriting.{Stands};
ghost use Rattle.bag_algebra.specs.declared.query.JoinKind.TheVariants.{Inner};
ghost use Rattle.bag_algebra.specs.declared.query.Query.TheVariants.{Filter, Join};
ghost use Rattle.bag_algebra.specs.declared.query.Query.{Query};
ghost use Rattle.bag_algebra.specs.declared.query.Sublink.{Sublink};
ghost use Rattle.contribution.specs.Conjunctions.{all_hold};
ghost use Rattle.query_laws.specs.Standing.{SubsStand};
ghost use Rattle.simpler_laws.specs.Tested.{tested};

use crate::forced::forced;
use crate::projections::{filter_raised, join_raised};
use bag_algebra::{Expr, JoinKind, Query, Sublink};
use perm_values::{List, NoMemory};
use simpler_laws::{filter_on, filter_standing, inner_pairs, join_standing, tested};
use std::alloc::Global;

/// The rows of a query of which all tests are true, over what stands for the query. It fails where that failed, and for want of
/// memory.
pub(crate) fn above(
    alloc: Global,
    rows: Result<Query, NoMemory>,
    tests: &[Expr],
) -> Result<Query, NoMemory>
    ensures { (q : Query) → IfOk rows (λ b. Stands q b) → IfOk result (λ p. Stands (tested q tests.now) p) }
{
    filter_raised(alloc, tested(alloc, rows, tests))
}

/// The pairs of rows of two queries of which all tests are true, over what stands for the queries. It fails where one of these
/// failed, and for want of memory.
pub(crate) fn pairs_where(
    alloc: Global,
    left: Result<Query, NoMemory>,
    right: Result<Query, NoMemory>,
    tests: &[Expr],
) -> Result<Query, NoMemory>
    ensures { (q r : Query) → IfOk left (λ b. Stands q b) → IfOk right (λ d. Stands r d) →
        IfOk result (λ p. Stands (Join Inner q r (all_hold tests.now) []) p) }
{
    join_raised(alloc, inner_pairs(alloc, left, right, tests))
}

/// The rows of a query of which all tests over sublinks are true, over what stands for the query and the sublinks. It fails where
/// one of these failed, and for want of memory.
pub(crate) fn rows_where(
    alloc: Global,
    rows: Result<Query, NoMemory>,
    tests: &[Expr],
    subs: Result<List<Sublink>, NoMemory>,
) -> Result<Query, NoMemory>
    ensures { (q : Query) (originals : List Sublink) → IfOk rows (λ b. Stands q b) →
        IfOk subs (λ others. SubsStand originals others) →
        IfOk result (λ p. Stands (Filter q (all_hold tests.now) originals) p) }
{
    filter_raised(alloc, filter_on(alloc, rows, tests, subs))
}

/// What stands for a Filter over what stands for its input and its sublinks. It fails where one of these failed, and for want
/// of memory.
pub(crate) fn filter_node(
    alloc: Global,
    input: Result<Query, NoMemory>,
    condition: &Expr,
    subs: Result<List<Sublink>, NoMemory>,
) -> Result<Query, NoMemory>
    ensures { (q : Query) (originals : List Sublink) → IfOk input (λ b. Stands q b) →
        IfOk subs (λ others. SubsStand originals others) →
        IfOk result (λ p. Stands (Filter q condition.now originals) p) }
{
    filter_raised(alloc, filter_standing(alloc, input, condition, subs))
}

/// What stands for a Join over what stands for its inputs and its sublinks. It fails where one of these failed, and for want of
/// memory.
pub(crate) fn join_node(
    alloc: Global,
    kind: JoinKind,
    left: Result<Query, NoMemory>,
    right: Result<Query, NoMemory>,
    condition: &Expr,
    subs: Result<List<Sublink>, NoMemory>,
) -> Result<Query, NoMemory>
    ensures { (q r : Query) (originals : List Sublink) → IfOk left (λ b. Stands q b) →
        IfOk right (λ d. Stands r d) →
        IfOk subs (λ others. SubsStand originals others) →
        IfOk result (λ p. Stands (Join kind q r condition.now originals) p) }
{
    forced(
        alloc,
        join_raised(
            alloc,
            join_standing(alloc, kind, left, right, condition, subs),
        ),
    )
}
