//! Which rows of a list a set operation leaves out: each row is looked at where it lies.
ghost use Rattle.std.specs.Prelude.{◌≡◌, IfOk, [], length, unwrap_or};
ghost use Rattle.std.specs.Map.{lookup};
ghost use Rattle.bag_algebra.specs.Bags.{Bag, count};
ghost use Rattle.perm_values.specs.Rows.{same_row};
ghost use Rattle.row_nodes.specs.Marks.{Holds, Numbers, marks_by, left_out, wanted, is_over};

use indexmap::{IndexMap, IndexSet};
use perm_values::{List, NoMemory, Row};
use std::alloc::Global;

/// The rows as a set.
pub(crate) fn row_set(alloc: Global, rows: &[Row]) -> Result<IndexSet<&Row>, NoMemory>
    ensures { IfOk result (λ set. Holds set.keys rows.now) }
{
    let mut set = IndexSet::new(alloc);
    for row in rows {
        set.insert(row)?;
    }
    Ok(set)
}

/// Flags the rows that stood before, and those that the other side lacks; or, unless the rows of both sides are wanted,
/// those that the other side has.
pub(crate) fn left_out<'a>(
    alloc: Global,
    common: bool,
    rows: &'a [Row],
    other: &IndexSet<&'a Row>,
) -> Result<List<bool>, NoMemory>
    ensures { (vs : Bag) → Holds other.now.keys vs
        → IfOk result (λ flags. flags ≡ marks_by (left_out (wanted common vs)) rows.now) }
{
    let mut seen = IndexSet::new(alloc);
    let mut flags = List::new(alloc);
    for row in rows {
        if other.contains(&row) == common {
            let is_new = seen.insert(row)?;
            flags.push(!is_new)?;
        } else {
            flags.push(true)?;
        }
    }
    Ok(flags)
}

/// Flags the rows that meet no row of the other side of their own; or, unless the rows of both sides are wanted, those
/// that do.
pub(crate) fn over<'a>(
    alloc: Global,
    common: bool,
    rows: &'a [Row],
    other: &'a [Row],
) -> Result<List<bool>, NoMemory>
    ensures { IfOk result (λ flags. flags ≡ marks_by (is_over common other.now) rows.now) }
{
    let mut left = numbers(alloc, other)?;
    let mut flags = List::new(alloc);
    for row in rows {
        let rest = number(&left, row);
        if rest > 0 {
            left.insert(row, rest - 1)?;
        }
        flags.push((rest > 0) != common)?;
    }
    Ok(flags)
}

/// How often each row stands among the rows.
fn numbers(alloc: Global, rows: &[Row]) -> Result<IndexMap<&Row, usize>, NoMemory>
    ensures { IfOk result (λ numbers. Numbers numbers.entries (λ t. count t rows.now)) }
{
    let mut numbers = IndexMap::new(alloc);
    for row in rows {
        let before = number(&numbers, row);
        numbers.insert(row, before + 1)?;
    }
    Ok(numbers)
}

fn number<'a>(numbers: &IndexMap<&'a Row, usize>, row: &'a Row) -> usize
    ensures { result ≡ unwrap_or (lookup (λ r. same_row row.now r.now) numbers.now.entries) 0 }
{
    match numbers.get(&row) {
        Some(number) => *number,
        None => 0,
    }
}
