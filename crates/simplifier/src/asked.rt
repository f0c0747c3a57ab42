//! What an EXISTS or an ANY asks of a row beside those of its table.
ghost use Rattle.std.specs.Prelude.{◌≡◌, [], ◌∷◌, IsTrue};
ghost use Rattle.null_logic.specs.declared.operator.Operator.TheVariants as op;
ghost use Rattle.bag_algebra.specs.declared.expr.Expr.TheVariants.{Op};
ghost use Rattle.query_laws.specs.spines.Spines.{tests_with};
ghost use Rattle.simplifier.specs.Forced.{Asks, AsksAny, IsOn, compared};

use crate::alike::{same_expr, same_table};
use bag_algebra::{Expr, Query, SubKind, Sublink};
use null_logic::{Compare, Operator, Truth};
use query_laws::Spine;

/// Whether a sublink of the kind asks anything of a row that a join can ask.
pub(crate) fn may_ask(kind: SubKind) -> bool {
    matches!(kind, SubKind::Exists | SubKind::Any(_))
}

/// Whether the sublink, whose query is the spine, asks for the rows of the query on the test.
pub(crate) fn is_on(sub: &Sublink, spine: &Spine, right: &Query, on: &Expr) -> bool
    ensures { IsTrue result → IsOn sub.now spine.now right.now on.now }
{
    same_table(&spine.base, right) && asks(sub, spine, on)
}

/// Whether the sublink, whose query is the spine, asks for the rows of its base on the test.
fn asks(sub: &Sublink, spine: &Spine, on: &Expr) -> bool
    ensures { IsTrue result → Asks sub.now spine.now on.now }
{
    match sub.kind {
        SubKind::Exists => sub.tested.is_none() && is_test(spine, on),
        SubKind::Any(compare) => match &sub.tested {
            Some(tested) => asks_any(compare, tested, spine, on),
            None => false,
        },
        SubKind::All(_) | SubKind::Scalar => false,
    }
}

/// Whether the expression is the test of the spine.
fn is_test(spine: &Spine, on: &Expr) -> bool
    ensures { IsTrue result → Some on.now ≡ spine.now.test }
{
    match &spine.test {
        Some(test) => same_expr(test, on),
        None => false,
    }
}

/// Whether the expression is the test of the spine and a comparison of what is tested with its only item.
fn asks_any(compare: Compare, tested: &Expr, spine: &Spine, on: &Expr) -> bool
    ensures { IsTrue result → AsksAny compare tested.now spine.now on.now }
{
    match spine.items.as_slice() {
        [item] => is_joined(compare, tested, &item.expr, spine, on),
        _ => false,
    }
}

/// Whether the expression is the test of the spine and a comparison of both.
fn is_joined(compare: Compare, tested: &Expr, cell: &Expr, spine: &Spine, on: &Expr) -> bool
    ensures { IsTrue result → on.now ≡ tests_with spine.now.test (compared compare tested.now cell.now) }
{
    match &spine.test {
        None => is_compared(compare, tested, cell, on),
        Some(test) => is_test_with(test, compare, tested, cell, on),
    }
}

/// Whether the expression is the test and a comparison of both.
fn is_test_with(test: &Expr, compare: Compare, tested: &Expr, cell: &Expr, on: &Expr) -> bool
    ensures { IsTrue result → on.now ≡ Op op.And (test.now ∷ compared compare tested.now cell.now ∷ []) }
{
    match on {
        Expr::Op {
            op: Operator::And,
            parts,
        } => match parts.as_slice() {
            [first, second] => {
                same_expr(first, test) && is_compared(compare, tested, cell, second)
            }
            _ => false,
        },
        _ => false,
    }
}

/// Whether the expression is that a comparison of both is true.
fn is_compared(compare: Compare, tested: &Expr, cell: &Expr, on: &Expr) -> bool
    ensures { IsTrue result → on.now ≡ compared compare tested.now cell.now }
{
    match on {
        Expr::IsTruth { truth, part } => {
            *truth == Truth::True && is_comparison(compare, tested, cell, part.get())
        }
        _ => false,
    }
}

/// Whether the expression is a comparison of both.
fn is_comparison(compare: Compare, tested: &Expr, cell: &Expr, expr: &Expr) -> bool
    ensures { IsTrue result → expr.now ≡ Op (op.Compare compare) (tested.now ∷ cell.now ∷ []) }
{
    match expr {
        Expr::Op { op, parts } => {
            *op == Operator::Compare(compare) && are_both(tested, cell, parts.as_slice())
        }
        _ => false,
    }
}

fn are_both(one: &Expr, other: &Expr, parts: &[Expr]) -> bool
    ensures { IsTrue result → parts.now ≡ one.now ∷ other.now ∷ [] }
{
    match parts {
        [first, second] => same_expr(first, one) && same_expr(second, other),
        _ => false,
    }
}
