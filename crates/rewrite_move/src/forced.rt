//! The truth that a condition forces on a sublink: where it is true a conjunct of it is, and what stands under NOT is false.
ghost use Rattle.std.specs.Prelude.{◌≡◌};
ghost use Rattle.rewrite_move.specs.ForcedTruths.{all_forced, forced, forces, if_false, if_true, negated, of_first, of_others};

use bag_algebra::Expr;
use null_logic::{Operator, Truth};

/// The truth that the sublink of this number has wherever the condition is true, if the condition forces one. It takes no memory.
pub(crate) fn forces(condition: &Expr, number: usize) -> Option<Truth>
    ensures { result ≡ forces condition.now number }
{
    forced(Some(Truth::True), condition, number)
}

/// The truth of the sublink where the expression has that truth, if one is known.
#[cycle(forced)]
fn forced(known: Option<Truth>, expr: &Expr, number: usize) -> Option<Truth>
    ensures { result ≡ forced known expr.now number }
{
    match expr {
        Expr::Col { .. } => None,
        Expr::Lit { .. } => None,
        Expr::Op { op, parts } => {
            let first = of_first(*op, known);
            let others = of_others(*op, known);
            parts_forced(first, others, parts.as_slice(), number)
        }
        Expr::Chain { .. } => None,
        Expr::Case { .. } => None,
        Expr::Sub { number: own } => {
            if *own == number {
                return known;
            }
            None
        }
        Expr::IsNull { .. } => None,
        Expr::IsTruth { truth, part } => forced(if_true(known, *truth), part.get(), number),
        Expr::Same { .. } => None,
    }
}

/// Likewise of parts of which the first has one truth, and the others another.
#[cycle(forced)]
fn parts_forced(
    first: Option<Truth>,
    others: Option<Truth>,
    parts: &[Expr],
    number: usize,
) -> Option<Truth>
    ensures { result ≡ all_forced first others parts.now number }
{
    let mut known = first;
    for part in parts {
        match forced(known, part, number) {
            Some(truth) => return Some(truth),
            None => known = others,
        }
    }
    None
}

/// The truth of an operator's first part where the operator has that truth: of what is true under AND, false under OR, or either
/// under NOT.
fn of_first(op: Operator, known: Option<Truth>) -> Option<Truth>
    ensures { result ≡ of_first op known }
{
    match op {
        Operator::And => if_true(known, Truth::True),
        Operator::Or => if_false(known, Truth::False),
        Operator::Not => negated(known),
        _ => None,
    }
}

/// The truth of each part behind the first.
fn of_others(op: Operator, known: Option<Truth>) -> Option<Truth>
    ensures { result ≡ of_others op known }
{
    match op {
        Operator::And => if_true(known, Truth::True),
        Operator::Or => if_false(known, Truth::False),
        _ => None,
    }
}

/// What is told by something that is true.
fn if_true(known: Option<Truth>, told: Truth) -> Option<Truth>
    ensures { result ≡ if_true known told }
{
    match known {
        Some(Truth::True) => Some(told),
        Some(Truth::False) => None,
        Some(Truth::Unknown) => None,
        None => None,
    }
}

/// What is told by something that is false.
fn if_false(known: Option<Truth>, told: Truth) -> Option<Truth>
    ensures { result ≡ if_false known told }
{
    match known {
        Some(Truth::True) => None,
        Some(Truth::False) => Some(told),
        Some(Truth::Unknown) => None,
        None => None,
    }
}

fn negated(known: Option<Truth>) -> Option<Truth>
    ensures { result ≡ negated known }
{
    match known {
        Some(truth) => Some(truth.not()),
        None => None,
    }
}
