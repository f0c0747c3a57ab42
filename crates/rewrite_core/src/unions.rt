//! The rule of unions.
ghost use Rattle.std.specs.Prelude.{◌≡◌, [], true, IfOk};
ghost use Rattle.std.specs.List.{range_with_len};
ghost use Rattle.bag_algebra.specs.ColumnItems.{column_items};
ghost use Rattle.bag_algebra.specs.Kinds.{kinds_of, width_of};
ghost use Rattle.bag_algebra.specs.built.Patterns.{ProjectOf, UnionOf};
ghost use Rattle.bag_algebra.specs.Rewriting.{IsRewrite};
ghost use Rattle.bag_algebra.specs.declared.query.Query.TheVariants.{Union};
ghost use Rattle.bag_algebra.specs.declared.query.Query.{end_of-Sublink};
ghost use Rattle.rewrite_core.specs.rewritings.OpenSublinks.{NoOpenSublink};
ghost use Rattle.rewrite_core.specs.rewritings.UnionSides.{before_nulls};
ghost use Rattle.rewrite_core.specs.UnionColumns.{items_behind, padded_behind, provenance_kinds};

use crate::rewritings::{UnionSide, before_nulls};
use bag_algebra::{Item, Query, exact_width};
use contribution::{columns_at, kinds, kinds_at, null_items, projection};
use perm_values::{Kind, List, NoMemory};
use std::alloc::Global;

/// A rewriting of a union, with all rows or each once, since how often a row stands in a rewriting is free: the rows of both
/// rewritings, each with NULLs at the other's provenance columns, the left ones first. It fails only for want of memory.
pub fn union_of(
    alloc: Global,
    all: bool,
    left: &Query,
    left_rewriting: Query,
    right: &Query,
    right_rewriting: Query,
) -> Result<Query, NoMemory>
    requires left { IsRewrite left.now left_rewriting }
    requires right { IsRewrite right.now right_rewriting }
    ensures rewrites { IfOk result (λ p. IsRewrite (Union all left.now right.now) p) }
    ensures none_open { IfOk result (λ p. NoOpenSublink left_rewriting → NoOpenSublink right_rewriting →
        NoOpenSublink p) }
{
    let Ok(right_added) = added_kinds(alloc, right, &right_rewriting) else {
        drop(left_rewriting);
        drop(right_rewriting);
        return Err(NoMemory);
    };
    both_padded(
        alloc,
        left,
        left_rewriting,
        right,
        right_rewriting,
        right_added.as_slice(),
    )
}

/// The rows of both rewritings, the left ones with NULLs of the added kinds.
fn both_padded(
    alloc: Global,
    left: &Query,
    left_rewriting: Query,
    right: &Query,
    right_rewriting: Query,
    right_added: &[Kind],
) -> Result<Query, NoMemory>
    ensures { IfOk result (λ p. p ≡
        UnionOf true (padded_behind left_rewriting (width_of left_rewriting) right_added.now)
        (padded_behind right_rewriting (width_of right.now) (provenance_kinds left.now left_rewriting))) }
{
    let Ok(left_added) = added_kinds(alloc, left, &left_rewriting) else {
        drop(left_rewriting);
        drop(right_rewriting);
        return Err(NoMemory);
    };
    let Ok(left_side) = padded(alloc, UnionSide::Left, left, left_rewriting, right_added) else {
        drop(right_rewriting);
        return Err(NoMemory);
    };
    beside(
        alloc,
        left_side,
        right,
        right_rewriting,
        left_added.as_slice(),
    )
}

/// The rows of the left side, and those of the right rewriting with NULLs of the added kinds.
fn beside(
    alloc: Global,
    left_side: Query,
    right: &Query,
    right_rewriting: Query,
    left_added: &[Kind],
) -> Result<Query, NoMemory>
    ensures { IfOk result (λ p. p ≡
        UnionOf true left_side (padded_behind right_rewriting (width_of right.now) left_added.now)) }
{
    let Ok(right_side) = padded(alloc, UnionSide::Right, right, right_rewriting, left_added) else {
        drop(left_side);
        return Err(NoMemory);
    };
    Query::union(alloc, true, left_side, right_side)
}

/// The side's rewriting with NULLs of the added kinds.
fn padded(
    alloc: Global,
    side: UnionSide,
    query: &Query,
    rewriting: Query,
    added: &[Kind],
) -> Result<Query, NoMemory>
    ensures { IfOk result (λ p. p ≡
        padded_behind rewriting (before_nulls side (width_of query.now) (width_of rewriting)) added.now) }
{
    let Ok(first) = null_place(side, query, &rewriting) else {
        drop(rewriting);
        return Err(NoMemory);
    };
    padded_at(alloc, rewriting, first, added)
}

/// How many columns of the side's rewriting stand before the NULLs.
fn null_place(side: UnionSide, query: &Query, rewriting: &Query) -> Result<usize, NoMemory>
    ensures { IfOk result (λ first. first ≡ before_nulls side (width_of query.now) (width_of rewriting.now)) }
{
    let own = exact_width(query)?;
    let all = exact_width(rewriting)?;
    Ok(before_nulls(side, own, all))
}

/// The query with NULLs of the added kinds behind its first columns; with no kinds, the query as it is.
fn padded_at(alloc: Global, query: Query, first: usize, added: &[Kind]) -> Result<Query, NoMemory>
    ensures { IfOk result (λ p. p ≡ padded_behind query first added.now) }
{
    if added.is_empty() {
        return Ok(query);
    }
    widened(alloc, query, first, added)
}

fn widened(alloc: Global, query: Query, first: usize, added: &[Kind]) -> Result<Query, NoMemory>
    ensures { IfOk result (λ p. p ≡ ProjectOf query (items_behind query first added.now) [] end_of-Sublink) }
{
    let Ok(items) = padded_columns(alloc, &query, first, added) else {
        drop(query);
        return Err(NoMemory);
    };
    projection(alloc, query, items)
}

/// The query's first columns, NULLs of the added kinds, and its other columns.
fn padded_columns(
    alloc: Global,
    query: &Query,
    first: usize,
    added: &[Kind],
) -> Result<List<Item>, NoMemory>
    ensures { IfOk result (λ items. items ≡ items_behind query.now first added.now) }
{
    let rest = exact_width(query)?.saturating_sub(first);
    let mut items = columns_between(alloc, query, 0, first)?;
    items.append(null_items(alloc, added)?)?;
    items.append(columns_between(alloc, query, first, rest)?)?;
    Ok(items)
}

/// As many columns of the query, from a place on.
fn columns_between(
    alloc: Global,
    query: &Query,
    start: usize,
    count: usize,
) -> Result<List<Item>, NoMemory>
    ensures { IfOk result (λ items. items ≡ column_items (kinds_of query.now) (range_with_len start count)) }
{
    let order = List::range(alloc, start, count)?;
    columns_at(alloc, query, order.as_slice())
}

/// The kinds of the columns that the rewriting has behind the query's.
fn added_kinds(alloc: Global, query: &Query, rewriting: &Query) -> Result<List<Kind>, NoMemory>
    ensures { IfOk result (λ added. added ≡ provenance_kinds query.now rewriting.now) }
{
    let start = exact_width(query)?;
    let columns = kinds(alloc, rewriting)?;
    let order = List::range(alloc, start, columns.len().saturating_sub(start))?;
    kinds_at(alloc, columns.as_slice(), order.as_slice())
}
