//! The set operations, by sets and counts of the rows where they lie.
ghost use Rattle.std.specs.Prelude.{◌≡◌, IfOk, false, cond, length};
ghost use Rattle.perm_values.specs.Marked.{unmarked};
ghost use Rattle.bag_algebra.specs.Bags.{Bag, once, union_of, intersect_of, except_of};

use crate::input::Input;
use crate::marks::{left_out, over, row_set};
use perm_values::{List, NoMemory, Row, Rows};
use std::alloc::Global;

/// Each row once, where it comes first; two NULLs are the same. It fails only for want of memory.
pub fn distinct(alloc: Global, input: Input) -> Result<Rows, NoMemory>
    ensures { IfOk result (λ rows. rows ≡ once input.entry) }
{
    let flags = repeated(alloc, input.as_slice())?;
    input.without(alloc, flags.as_slice())
}

/// The rows of the left, then those of the right; unless all are wanted, each once. It fails only for want of memory.
pub fn united(alloc: Global, all: bool, left: Input, right: Input) -> Result<Rows, NoMemory>
    ensures { IfOk result (λ rows. rows ≡ union_of all left.entry right.entry) }
{
    if all {
        let mut rows = left.into_rows(alloc)?;
        rows.append(right.into_rows(alloc)?)?;
        return Ok(rows);
    }
    united_once(alloc, left, right)
}

/// Each row of both sides once.
fn united_once(alloc: Global, left: Input, right: Input) -> Result<Rows, NoMemory>
    ensures { IfOk result (λ rows. rows ≡ union_of false left.entry right.entry) }
{
    let more = compared(alloc, false, false, right.as_slice(), left.as_slice())?;
    let mut rows = distinct(alloc, left)?;
    rows.append(right.without(alloc, more.as_slice())?)?;
    Ok(rows)
}

/// The rows of the left that are also in the right. It fails only for want of memory.
pub fn intersected(alloc: Global, all: bool, left: Input, right: Input) -> Result<Rows, NoMemory>
    ensures { IfOk result (λ rows. rows ≡ intersect_of all left.entry right.entry) }
{
    let flags = compared(alloc, all, true, left.as_slice(), right.as_slice())?;
    left.without(alloc, flags.as_slice())
}

/// The rows of the left that the right lacks. It fails only for want of memory.
pub fn excepted(alloc: Global, all: bool, left: Input, right: Input) -> Result<Rows, NoMemory>
    ensures { IfOk result (λ rows. rows ≡ except_of all left.entry right.entry) }
{
    let flags = compared(alloc, all, false, left.as_slice(), right.as_slice())?;
    left.without(alloc, flags.as_slice())
}

/// Flags the rows that stood before.
fn repeated(alloc: Global, rows: &[Row]) -> Result<List<bool>, NoMemory>
    ensures once { IfOk result (λ flags. unmarked flags rows.now ≡ once rows.now) }
    ensures long { IfOk result (λ flags. length flags ≡ length rows.now) }
{
    let none = row_set(alloc, &[])?;
    left_out(alloc, false, rows, &none)
}

/// Flags the rows of the left that a set operation leaves out.
fn compared<'a>(
    alloc: Global,
    all: bool,
    common: bool,
    left: &'a [Row],
    right: &'a [Row],
) -> Result<List<bool>, NoMemory>
    ensures rest { IfOk result
        (λ flags. unmarked flags left.now
        ≡ cond common (intersect_of all left.now right.now) (except_of all left.now right.now)) }
    ensures long { IfOk result (λ flags. length flags ≡ length left.now) }
{
    if all {
        return over(alloc, common, left, right);
    }
    let held = row_set(alloc, right)?;
    left_out(alloc, common, left, &held)
}
