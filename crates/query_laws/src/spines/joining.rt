//! The rows of a query, each beside what another has for it, by an ordinary join where that serves.
ghost use Rattle.std.specs.Prelude.{◌≡◌, ◌++◌, [], IfOk, IfSome, IsTrue};
ghost use Rattle.bag_algebra.specs.Kinds.{kinds_of, width_of};
ghost use Rattle.bag_algebra.specs.built.Patterns.{ProjectOf};
ghost use Rattle.bag_algebra.specs.declared.query.Query.{Query, end_of-Sublink};
ghost use Rattle.contribution.specs.Conjunctions.{condition_or_true};
ghost use Rattle.query_laws.specs.spines.Spines.{IsBeside, IsJoined, IsSpine, all_behind, is_behind, items_behind};
ghost use Rattle.query_laws.specs.spines.Spines.{spine_join};

use crate::spines::spine::{Spine, items_behind, spine_of};
use bag_algebra::{Expr, Item, JoinKind, Query, exact_width};
use contribution::{always, join_on, kinds, outwards, projection};
use perm_values::{List, NoMemory};
use std::alloc::Global;

/// Each of the rows beside each row that the right query has under it, or beside NULLs where it has none: the dependent join that
/// keeps left rows, and where the right query is a spine beside the rows, of which the items are columns of its base, the ordinary
/// join in its place. It fails only for want of memory.
pub fn beside(alloc: Global, rows: Query, right: Query) -> Result<Query, NoMemory>
    ensures beside { IfOk result (λ p. IsBeside rows right p) }
    ensures joined { IfOk result (λ p. IsJoined rows right p) }
{
    let Ok(found) = spine_beside(alloc, &rows, &right) else {
        drop(rows);
        drop(right);
        return Err(NoMemory);
    };
    match found {
        Some(spine) => {
            drop(right);
            join_spine(alloc, outwards(), rows, spine)
        }
        None => Query::apply(alloc, outwards(), rows, right),
    }
}

/// The spine that the right query is beside the rows, where its items are columns of the base.
fn spine_beside(alloc: Global, rows: &Query, right: &Query) -> Result<Option<Spine>, NoMemory>
    ensures { IfOk result (λ found. IfSome found (λ spine. IsSpine (width_of rows.now) right.now spine
        × IsTrue (all_behind (width_of rows.now) spine.items))) }
{
    let before = exact_width(rows)?;
    let Some(spine) = spine_of(alloc, right, before)? else {
        return Ok(None);
    };
    if all_behind(before, spine.items.as_slice()) {
        return Ok(Some(spine));
    }
    drop(spine);
    Ok(None)
}

/// Whether all items are columns behind so many others.
fn all_behind(before: usize, items: &[Item]) -> bool
    ensures { result ≡ all_behind before items.now }
{
    for item in items {
        if !is_behind(before, &item.expr) {
            return false;
        }
    }
    true
}

/// Whether the expression is a column of the own row behind so many others.
fn is_behind(before: usize, expr: &Expr) -> bool
    ensures { result ≡ is_behind before expr.now }
{
    match expr {
        Expr::Col { level, place } => *level == 0 && before <= *place,
        Expr::Lit { .. } => false,
        Expr::Op { .. } => false,
        Expr::Chain { .. } => false,
        Expr::Case { .. } => false,
        Expr::Sub { .. } => false,
        Expr::IsNull { .. } => false,
        Expr::IsTruth { .. } => false,
        Expr::Same { .. } => false,
    }
}

/// The rows of the left query, each beside what the spine's items make of it and a row of the base. It fails only for want of memory.
pub fn join_spine(
    alloc: Global,
    kind: JoinKind,
    left: Query,
    spine: Spine,
) -> Result<Query, NoMemory>
    ensures { IfOk result (λ p. p ≡ spine_join kind left spine) }
{
    let Ok(columns) = own_columns(alloc, &left) else {
        drop(left);
        drop(spine);
        return Err(NoMemory);
    };
    let Spine { base, test, items } = spine;
    let pairs = join_on(alloc, kind, left, base, test_of(test));
    all_columns(alloc, pairs, columns, items)
}

/// All columns of the query, in their order.
fn own_columns(alloc: Global, left: &Query) -> Result<List<Item>, NoMemory>
    ensures { IfOk result (λ columns. columns ≡ items_behind 0 (kinds_of left.now)) }
{
    let own = kinds(alloc, left)?;
    items_behind(alloc, 0, own.as_slice())
}

/// What the rows are joined on.
fn test_of(test: Option<Expr>) -> Expr
    ensures { result ≡ condition_or_true test }
{
    match test {
        Some(test) => test,
        None => always(),
    }
}

/// The columns and then the items, over a query that was made. It fails where that failed, and for want of memory.
fn all_columns(
    alloc: Global,
    pairs: Result<Query, NoMemory>,
    columns: List<Item>,
    items: List<Item>,
) -> Result<Query, NoMemory>
    ensures { (query : Query) → IfOk pairs (λ made. made ≡ query) →
        IfOk result (λ p. p ≡ ProjectOf query (columns ++ items) [] end_of-Sublink) }
{
    let pairs = pairs?;
    let mut all = columns;
    let Ok(_) = all.append(items) else {
        drop(pairs);
        return Err(NoMemory);
    };
    projection(alloc, pairs, all)
}
