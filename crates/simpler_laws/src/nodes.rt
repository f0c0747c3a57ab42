//! Nodes over the results of the calls that make what they take.
ghost use Rattle.std.specs.Prelude.{◌<◌, [], List, IfOk, length};
ghost use Rattle.bag_algebra.specs.Rewriting.{Stands};
ghost use Rattle.bag_algebra.specs.declared.query.JoinKind.TheVariants.{Inner};
ghost use Rattle.bag_algebra.specs.declared.query.Query.TheVariants.{Filter, Join};
ghost use Rattle.bag_algebra.specs.declared.query.Query.{Query};
ghost use Rattle.bag_algebra.specs.declared.query.Sublink.{Sublink};
ghost use Rattle.query_laws.specs.Standing.{SubsStand};
ghost use Rattle.contribution.specs.Conjunctions.{all_hold};
ghost use Rattle.simpler_laws.specs.Tested.{tested};

use crate::conditions::conjunction;
use bag_algebra::{Expr, JoinKind, Query, Sublink};
use perm_values::{List, NoMemory, both, three};
use std::alloc::Global;

/// The rows of a query of which all tests are true, over what stands for the query. It fails where that failed, and for want
/// of memory.
pub fn tested(
    alloc: Global,
    rows: Result<Query, NoMemory>,
    tests: &[Expr],
) -> Result<Query, NoMemory>
    ensures { (q : Query) → IfOk rows (λ b. Stands q b) → IfOk result (λ p. Stands (tested q tests.now) p) }
{
    if tests.len() > 0 {
        return filtered(alloc, rows, tests);
    }
    rows
}

/// The same where there is a test.
fn filtered(alloc: Global, rows: Result<Query, NoMemory>, tests: &[Expr]) -> Result<Query, NoMemory>
    requires { 0 < length tests.now }
    ensures { (q : Query) → IfOk rows (λ b. Stands q b) → IfOk result (λ p. Stands (tested q tests.now) p) }
{
    let (rows, condition) = both(rows, conjunction(alloc, tests))?;
    Query::filter(alloc, rows, condition, List::new(alloc))
}

/// The rows of a query of which all tests over sublinks are true, over what stands for the query and the sublinks. It fails
/// where one of these failed, and for want of memory.
pub fn filter_on(
    alloc: Global,
    rows: Result<Query, NoMemory>,
    tests: &[Expr],
    subs: Result<List<Sublink>, NoMemory>,
) -> Result<Query, NoMemory>
    ensures { (q : Query) (originals : List Sublink) → IfOk rows (λ b. Stands q b) →
        IfOk subs (λ others. SubsStand originals others) →
        IfOk result (λ p. Stands (Filter q (all_hold tests.now) originals) p) }
{
    let (rows, condition, subs) = three(rows, conjunction(alloc, tests), subs)?;
    Query::filter(alloc, rows, condition, subs)
}

/// The pairs of rows of two queries of which all tests are true, over what stands for the queries. It fails where one of
/// these failed, and for want of memory.
pub fn inner_join(
    alloc: Global,
    left: Result<Query, NoMemory>,
    right: Result<Query, NoMemory>,
    tests: &[Expr],
) -> Result<Query, NoMemory>
    ensures { (q r : Query) → IfOk left (λ b. Stands q b) → IfOk right (λ d. Stands r d) →
        IfOk result (λ p. Stands (Join Inner q r (all_hold tests.now) []) p) }
{
    let (left, right, condition) = three(left, right, conjunction(alloc, tests))?;
    Query::join(
        alloc,
        JoinKind::Inner,
        left,
        right,
        condition,
        List::new(alloc),
    )
}
