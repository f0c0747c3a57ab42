//! A LEFT JOIN with what an EXISTS or an ANY finds that the rows on the left were asked for.
ghost use Rattle.std.specs.Prelude.{◌≡◌, List as ItemsOf, IfOk, IsTrue};
ghost use Rattle.bag_algebra.specs.Rewriting.{Stands};
ghost use Rattle.bag_algebra.specs.declared.expr.Expr.{Expr};
ghost use Rattle.bag_algebra.specs.declared.expr.Expr.TheVariants.{Sub};
ghost use Rattle.bag_algebra.specs.declared.query.Query.TheVariants.{Filter, Join};
ghost use Rattle.bag_algebra.specs.declared.query.Query.{Query};
ghost use Rattle.bag_algebra.specs.declared.query.Sublink.{Sublink};
ghost use Rattle.simplifier.specs.Forced.{FindsOn, IsForced, SubFinds};

use crate::asked::{is_on, may_ask};
use crate::below::spine_below;
use bag_algebra::{
    Expr, JoinKind, JoinParts, Projection, Query, Selection, Sublink, exact_width, faultless,
};
use perm_values::{List, NoMemory};
use std::alloc::Global;

/// What stands for whatever the query stands for. A LEFT JOIN of the rows where an EXISTS or an ANY is true with the table that it
/// looks at, on what it asks for, is the inner join of all rows, below a projection too. It fails where the query failed, and for want of memory.
pub(crate) fn forced(alloc: Global, query: Result<Query, NoMemory>) -> Result<Query, NoMemory>
    ensures { (q : Query) → IfOk query (λ b. Stands q b) → IfOk result (λ p. Stands q p) }
{
    match query?.into_projection() {
        Ok(Projection { input, items, subs }) => {
            let Ok(rows) = joined(alloc, input) else {
                drop(items);
                drop(subs);
                return Err(NoMemory);
            };
            Query::project(alloc, rows, items, subs)
        }
        Err(other) => joined(alloc, other),
    }
}

/// The same of the topmost join.
fn joined(alloc: Global, query: Query) -> Result<Query, NoMemory>
    ensures { (q : Query) → Stands q query → IfOk result (λ p. Stands q p) }
{
    match query.into_join() {
        Ok(parts) => forced_parts(alloc, parts),
        Err(other) => Ok(other),
    }
}

/// The same of a join's parts.
fn forced_parts(alloc: Global, parts: JoinParts) -> Result<Query, NoMemory>
    ensures { (q : Query) → Stands q (Join parts.kind parts.left parts.right parts.condition parts.subs) →
        IfOk result (λ p. Stands q p) }
{
    let JoinParts {
        kind,
        left,
        right,
        condition,
        subs,
    } = parts;
    let Ok(forced) = is_forced(alloc, kind, &left, &right, &condition, &subs) else {
        drop(left);
        drop(right);
        drop(condition);
        drop(subs);
        return Err(NoMemory);
    };
    if forced {
        let rows = filtered(left);
        return Query::join(alloc, JoinKind::Inner, rows, right, condition, subs);
    }
    Query::join(alloc, kind, left, right, condition, subs)
}

/// The input of a filter.
fn filtered(query: Query) -> Query
    ensures { (input : Query) (condition : Expr) (subs : ItemsOf Sublink) →
        query ≡ Filter input condition subs → result ≡ input }
{
    match query.into_selection() {
        Ok(Selection { input, .. }) => input,
        Err(other) => other,
    }
}

/// Whether a join is such a one.
fn is_forced(
    alloc: Global,
    kind: JoinKind,
    left: &Query,
    right: &Query,
    on: &Expr,
    subs: &List<Sublink>,
) -> Result<bool, NoMemory>
    ensures { IfOk result (λ forced. IsTrue forced → IsForced kind left.now right.now on.now subs.now) }
{
    if !matches!(kind, JoinKind::Left) || !subs.is_empty() || !faultless(on) {
        return Ok(false);
    }
    finds(alloc, left, right, on)
}

/// Whether the query is a filter on an EXISTS or an ANY alone, which asks for the rows of the other on the test.
fn finds(alloc: Global, left: &Query, right: &Query, on: &Expr) -> Result<bool, NoMemory>
    ensures { IfOk result (λ found. IsTrue found → FindsOn left.now right.now on.now) }
{
    match left {
        Query::Filter {
            input,
            condition,
            subs,
        } => {
            if !is_first(condition) {
                return Ok(false);
            }
            match subs.as_slice() {
                [sub] => only_finds(alloc, input.get(), sub, right, on),
                _ => Ok(false),
            }
        }
        _ => Ok(false),
    }
}

/// Whether the expression is the first sublink.
fn is_first(expr: &Expr) -> bool
    ensures { IsTrue result → expr.now ≡ Sub 0 }
{
    matches!(expr, Expr::Sub { number: 0 })
}

/// Whether the sublink beside rows of the input asks for the rows of the other query on the test.
fn only_finds(
    alloc: Global,
    input: &Query,
    sub: &Sublink,
    right: &Query,
    on: &Expr,
) -> Result<bool, NoMemory>
    ensures { IfOk result (λ found. IsTrue found → SubFinds input.now sub.now right.now on.now) }
{
    if !may_ask(sub.kind) {
        return Ok(false);
    }
    let width = exact_width(input)?;
    match spine_below(alloc, &sub.query, width)? {
        Some(spine) => Ok(is_on(sub, &spine, right, on)),
        None => Ok(false),
    }
}
