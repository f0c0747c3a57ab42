//! Inner joins, also with the one row of no columns.
ghost use Rattle.std.specs.Prelude.{◌≡◌, [], IfOk, IsTrue};
ghost use Rattle.bag_algebra.specs.Rewriting.{Stands};
ghost use Rattle.bag_algebra.specs.declared.expr.Expr.{Expr};
ghost use Rattle.bag_algebra.specs.declared.query.JoinKind.TheVariants.{Inner};
ghost use Rattle.bag_algebra.specs.declared.query.Query.TheVariants.{Join, Single};
ghost use Rattle.bag_algebra.specs.declared.query.Query.{Query};
ghost use Rattle.contribution.specs.Conjunctions.{all_hold};

use crate::nodes::inner_join;
use bag_algebra::{Expr, Query};
use perm_values::{NoMemory, both};
use std::alloc::Global;

/// The pairs of rows of two queries of which all tests are true, over what stands for the queries; where there is no test and
/// one of the queries is the one row of no columns, the other. It fails where one of these failed, and for want of memory.
pub fn inner_pairs(
    alloc: Global,
    left: Result<Query, NoMemory>,
    right: Result<Query, NoMemory>,
    tests: &[Expr],
) -> Result<Query, NoMemory>
    ensures { (q r : Query) → IfOk left (λ b. Stands q b) → IfOk right (λ d. Stands r d) →
        IfOk result (λ p. Stands (Join Inner q r (all_hold tests.now) []) p) }
{
    if tests.len() > 0 {
        return inner_join(alloc, left, right, tests);
    }
    all_pairs(alloc, left, right)
}

/// All pairs of rows of two queries.
fn all_pairs(
    alloc: Global,
    left: Result<Query, NoMemory>,
    right: Result<Query, NoMemory>,
) -> Result<Query, NoMemory>
    ensures { (q r : Query) → IfOk left (λ b. Stands q b) → IfOk right (λ d. Stands r d) →
        IfOk result (λ p. Stands (Join Inner q r (all_hold []) []) p) }
{
    let (left, right) = both(left, right)?;
    if is_single(&right) {
        return Ok(left);
    }
    if is_single(&left) {
        return Ok(right);
    }
    inner_join(alloc, Ok(left), Ok(right), &[])
}

/// Whether the query is the one row of no columns.
fn is_single(query: &Query) -> bool
    ensures { IsTrue result → query.now ≡ Single }
{
    matches!(query, Query::Single)
}
