//! Where the columns of a side stand in the pairs of a join.
ghost use Rattle.std.specs.Prelude.{◌≡◌, IfOk};
ghost use Rattle.rewrite_sublink.specs.joins.ByParts.{columns_of_pair, is_part, left_side, places_in_pair, right_side};

use bag_algebra::{Expr, Query, exact_width};
use contribution::same_columns;
use perm_values::{List, NoMemory};
use rewrite_core::sum;
use std::alloc::Global;

/// The columns of a pair: those before the side's own, these, those between them and the side's provenance, this, and those
/// behind it.
#[derive(Clone, Copy)]
pub(crate) struct Side {
    pub(crate) before: usize,
    pub(crate) own: usize,
    pub(crate) between: usize,
    pub(crate) added: usize,
    pub(crate) behind: usize,
}

/// The left columns come first in a pair, then the right ones, then the left provenance.
pub(crate) fn left_side(
    left: &Query,
    left_rewriting: &Query,
    right: &Query,
    pairs: &Query,
) -> Result<Side, NoMemory>
    ensures { IfOk result (λ side. side ≡ left_side left.now left_rewriting.now right.now pairs.now) }
{
    let own = exact_width(left)?;
    let row = exact_width(left_rewriting)?;
    let between = exact_width(right)?;
    let pair = exact_width(pairs)?;
    let first = sum(row, between)?;
    Ok(Side {
        before: 0,
        own,
        between,
        added: row.saturating_sub(own),
        behind: pair.saturating_sub(first),
    })
}

/// The right columns come behind the left ones in a pair, and the right provenance behind the left one.
pub(crate) fn right_side(
    left: &Query,
    left_rewriting: &Query,
    right: &Query,
    right_rewriting: &Query,
    pairs: &Query,
) -> Result<Side, NoMemory>
    ensures { IfOk result (λ side.
        side ≡ right_side left.now left_rewriting.now right.now right_rewriting.now pairs.now) }
{
    let before = exact_width(left)?;
    let other = exact_width(left_rewriting)?;
    let own = exact_width(right)?;
    let row = exact_width(right_rewriting)?;
    let pair = exact_width(pairs)?;
    let first = sum(other, row)?;
    Ok(Side {
        before,
        own,
        between: other.saturating_sub(before),
        added: row.saturating_sub(own),
        behind: pair.saturating_sub(first),
    })
}

/// Whether a row of the side's rewriting is the side's part of the pair behind it, two NULLs being the same.
pub(crate) fn is_part(alloc: Global, side: Side) -> Result<Expr, NoMemory>
    ensures { IfOk result (λ test. test ≡ is_part side) }
{
    let row = sum(side.own, side.added)?;
    let own = List::range(alloc, 0, row)?;
    let there = places_in_pair(alloc, row, side)?;
    same_columns(alloc, 0, own.as_slice(), there.as_slice())
}

fn places_in_pair(alloc: Global, start: usize, side: Side) -> Result<List<usize>, NoMemory>
    ensures { IfOk result (λ places. places ≡ places_in_pair start side) }
{
    let own = sum(start, side.before)?;
    let between = sum(own, side.own)?;
    let added = sum(between, side.between)?;
    let mut places = List::range(alloc, own, side.own)?;
    places.append(List::range(alloc, added, side.added)?)?;
    Ok(places)
}

/// The columns of a pair, those of the side taken from the row of its rewriting before the pair.
pub(crate) fn columns_of_pair(alloc: Global, side: Side) -> Result<List<usize>, NoMemory>
    ensures { IfOk result (λ order. order ≡ columns_of_pair side) }
{
    let row = sum(side.own, side.added)?;
    let own = sum(row, side.before)?;
    let between = sum(own, side.own)?;
    let added = sum(between, side.between)?;
    let behind = sum(added, side.added)?;
    let mut order = List::range(alloc, row, side.before)?;
    order.append(List::range(alloc, 0, side.own)?)?;
    order.append(List::range(alloc, between, side.between)?)?;
    order.append(List::range(alloc, side.own, side.added)?)?;
    order.append(List::range(alloc, behind, side.behind)?)?;
    Ok(order)
}
