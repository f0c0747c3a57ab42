//! Whether a row of a sublink's query contributes to a row that holds the sublink's value and its left operand.
ghost use Rattle.std.specs.Prelude.{◌≡◌, ◌∷◌, [], IfOk};
ghost use Rattle.null_logic.specs.declared.operator.Operator.TheVariants as op;
ghost use Rattle.bag_algebra.specs.declared.expr.Expr.TheVariants.{Op};
ghost use Rattle.lateral_rewrite.specs.Dependent.{compared, contributes, has_value, undecided};

use crate::choices::{Choice, row_level};
use bag_algebra::Expr;
use null_logic::Operator;
use perm_values::{Boxed, List, NoMemory};
use rewrite_core::sum;
use std::alloc::Global;

/// The sublink's value doesn't choose, or the comparison of the left operand and the row's first column has that truth too.
/// The value stands at the place, and the left operand behind it.
pub(crate) fn contributes(alloc: Global, choice: Choice, place: usize) -> Result<Expr, NoMemory>
    ensures { IfOk result (λ test. test ≡ contributes choice place) }
{
    let behind = sum(place, 1)?;
    let first = undecided(alloc, choice, place)?;
    let Ok(second) = compared(alloc, choice, behind) else {
        drop(first);
        return Err(NoMemory);
    };
    either(alloc, first, second)
}

fn either(alloc: Global, first: Expr, second: Expr) -> Result<Expr, NoMemory>
    ensures { IfOk result (λ test. test ≡ Op op.Or (first ∷ second ∷ [])) }
{
    let parts = pair(alloc, first, second)?;
    let op = Operator::Or;
    Ok(Expr::Op { op, parts })
}

fn pair(alloc: Global, first: Expr, second: Expr) -> Result<List<Expr>, NoMemory>
    ensures { IfOk result (λ parts. parts ≡ first ∷ second ∷ []) }
{
    let mut parts = List::new(alloc);
    let Ok(()) = parts.push(first) else {
        drop(second);
        return Err(NoMemory);
    };
    parts.push(second)?;
    Ok(parts)
}

fn undecided(alloc: Global, choice: Choice, place: usize) -> Result<Expr, NoMemory>
    ensures { IfOk result (λ test. test ≡ undecided choice place) }
{
    let level = row_level();
    let mut parts = List::new(alloc);
    parts.push(has_value(alloc, choice, Expr::Col { level, place })?)?;
    let op = Operator::Not;
    Ok(Expr::Op { op, parts })
}

/// The comparison of the left operand, which stands at the place of the nearest outer row, and the row's first column has the
/// truth of the choice. It fails only for want of memory.
pub fn compared(alloc: Global, choice: Choice, place: usize) -> Result<Expr, NoMemory>
    ensures { IfOk result (λ test. test ≡ compared choice place) }
{
    let level = row_level();
    let operand = Expr::Col { level, place };
    let column = Expr::Col { level: 0, place: 0 };
    let parts = pair(alloc, operand, column)?;
    let op = Operator::Compare(choice.compare);
    has_value(alloc, choice, Expr::Op { op, parts })
}

fn has_value(alloc: Global, choice: Choice, part: Expr) -> Result<Expr, NoMemory>
    ensures { IfOk result (λ test. test ≡ has_value choice part) }
{
    let part = Boxed::new(alloc, part)?;
    let truth = choice.truth;
    Ok(Expr::IsTruth { truth, part })
}
