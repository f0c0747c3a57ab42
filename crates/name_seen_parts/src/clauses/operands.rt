//! Operands of set operations.
ghost use Rattle.std.specs.Prelude.{◌≡◌, ◌&&◌};
ghost use Rattle.name_seen_parts.specs.Seen.{first_or};
ghost use Rattle.name_meaning.specs.Queries.{do_unite, operand_break, united_columns};
ghost use Rattle.name_seen_parts.specs.Columns.{columns_of};

use crate::clauses::column::ShownColumn;
use crate::kinds::{united_kind, unites};
use name_meaning::{Break, Rule};

/// That the columns of an operand at this offset are not as many as those before it, or don't unite with them.
pub fn operand_break(at: usize, left: &[ShownColumn], right: &[ShownColumn]) -> Result<(), Break>
    ensures { result ≡ first_or (operand_break at (columns_of left.now) (columns_of right.now)) tt }
{
    if left.len() != right.len() {
        return Err(Break {
            rule: Rule::UnfitWidth,
            at,
        });
    }
    if !do_unite(left, right) {
        return Err(Break {
            rule: Rule::UnfitKind,
            at,
        });
    }
    Ok(())
}

fn do_unite(left: &[ShownColumn], right: &[ShownColumn]) -> bool
    ensures { result ≡ do_unite (columns_of left.now) (columns_of right.now) }
{
    for at in 0..left.len().min(right.len()) {
        if !unites(left[at].kind, right[at].kind) {
            return false;
        }
    }
    true
}

/// The columns so far with the kinds to which they were united with those of one more operand.
pub fn unite(left: &mut [ShownColumn], right: &[ShownColumn])
    ensures { columns_of left.new ≡ united_columns (columns_of left.old) (columns_of right.now) }
{
    for at in 0..left.len().min(right.len()) {
        left[at].kind = united_kind(left[at].kind, right[at].kind);
    }
}
