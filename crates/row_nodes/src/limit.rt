//! LIMIT: the first of the rows in order.
ghost use Rattle.std.specs.Prelude.{◌≡◌, ◌++◌, ◌∷◌, [], IfOk, IsSorted, IsTrue, take};
ghost use Rattle.perm_values.specs.Rows.{printed_cmp};
ghost use Rattle.bag_algebra.specs.Bags.{sorted};

use crate::input::Input;
use perm_values::{Copyable, Key, List, NoMemory, Row, Rows};
use std::alloc::Global;

/// So many first rows are kept in order as the rows come; where more are asked for, all rows are sorted at once.
const FEW: u64 = 100;

/// The first rows in the order of the keys, then of all columns. It fails only for want of memory.
pub fn limited(alloc: Global, rows: Input, keys: &[Key], count: u64) -> Result<Rows, NoMemory>
    ensures { IfOk result (λ found. found ≡ take count (sorted (printed_cmp keys.now) rows.entry)) }
{
    if count <= FEW {
        return foremost(alloc, rows.as_slice(), keys, count);
    }
    first(rows.into_rows(alloc)?, keys, count)
}

/// The first rows, kept in order as the rows come.
fn foremost(alloc: Global, rows: &[Row], keys: &[Key], count: u64) -> Result<Rows, NoMemory>
    ensures { IfOk result (λ kept. kept ≡ take count (sorted (printed_cmp keys.now) rows.now)) }
{
    let mut kept = List::new(alloc);
    for row in rows {
        if !is_behind(kept.as_slice(), row, keys, count) {
            kept.push(row.copy(alloc)?)?;
            kept = first(kept, keys, count)?;
        }
    }
    Ok(kept)
}

/// Whether the row comes behind as many rows in order as are kept.
fn is_behind(kept: &[Row], row: &Row, keys: &[Key], count: u64) -> bool
    requires { IsSorted (printed_cmp keys.now) kept.now }
    ensures { IsTrue result →
        take count (sorted (printed_cmp keys.now) (kept.now ++ row.now ∷ [])) ≡ take count kept.now }
{
    let held = kept.len();
    if held == 0 || (held as u64) < count {
        return false;
    }
    row.order_by(keys, &kept[held - 1]).is_ge()
}

fn first(rows: Rows, keys: &[Key], count: u64) -> Result<Rows, NoMemory>
    ensures is { IfOk result (λ first. first ≡ take count (sorted (printed_cmp keys.now) rows)) }
    ensures rises { IfOk result (λ first. IsSorted (printed_cmp keys.now) first) }
{
    let mut items = rows.into_vec();
    items.sort_by(|left: &Row, right: &Row| left.order_by(keys, right))?;
    items.truncate(count as usize);
    Ok(List::from_vec(items))
}
