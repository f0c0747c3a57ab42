//! How many columns a set operation has, and its left rewriting.
ghost use Rattle.std.specs.Prelude.{IfOk};
ghost use Rattle.rewrite_core.specs.ColumnsOf.{ColumnsOf};

use crate::rewritings::sum;
use bag_algebra::{Query, exact_width};
use perm_values::NoMemory;

/// How many columns a set operation and its left rewriting have, which begins with them.
#[derive(Clone, Copy)]
pub(crate) struct SetWidths {
    pub(crate) own: usize,
    pub(crate) kept: usize,
    /// Both together.
    pub(crate) right: usize,
    /// Those of the set operation, twice.
    pub(crate) left_out: usize,
}

/// It fails only where a number of columns is greater than any `usize`.
pub(crate) fn columns_of(left: &Query, rewriting: &Query) -> Result<SetWidths, NoMemory>
    ensures { IfOk result (λ columns. ColumnsOf columns left.now rewriting.now) }
{
    let own = exact_width(left)?;
    let kept = exact_width(rewriting)?;
    Ok(SetWidths {
        own,
        kept,
        right: sum(kept, own)?,
        left_out: sum(own, own)?,
    })
}
