//! Which sublinks of a node its expressions use.
ghost use Rattle.std.specs.Prelude.{◌≡◌};
ghost use Rattle.tree_texts.specs.expressions.Uses.{uses};
ghost use Rattle.tree_texts.specs.expressions.Used.{all_parts_use, all_steps_use, all_arms_use};

use bag_algebra::{Arm, ChainStep, Expr};

/// Whether the sublink of a number stands in the expression. It takes no memory.
#[cycle(uses)]
pub fn uses(number: usize, expr: &Expr) -> bool
    ensures { result ≡ uses number expr.now }
{
    match expr {
        Expr::Col { .. } => false,
        Expr::Lit { .. } => false,
        Expr::Op { parts, .. } => parts_use(number, parts.as_slice()),
        Expr::Chain { first, steps } => {
            steps_use(number, steps.as_slice()) || uses(number, first.get())
        }
        Expr::Case { arms, otherwise } => {
            arms_use(number, arms.as_slice()) || uses(number, otherwise.get())
        }
        Expr::Sub { number: other } => *other == number,
        Expr::IsNull { part } => uses(number, part.get()),
        Expr::IsTruth { part, .. } => uses(number, part.get()),
        Expr::Same { first, second } => uses(number, first.get()) || uses(number, second.get()),
    }
}

#[cycle(uses)]
fn parts_use(number: usize, parts: &[Expr]) -> bool
    ensures { result ≡ all_parts_use number parts.now }
{
    for part in parts {
        if uses(number, part) {
            return true;
        }
    }
    false
}

#[cycle(uses)]
fn steps_use(number: usize, steps: &[ChainStep]) -> bool
    ensures { result ≡ all_steps_use number steps.now }
{
    for step in steps {
        if uses(number, &step.part) {
            return true;
        }
    }
    false
}

#[cycle(uses)]
fn arms_use(number: usize, arms: &[Arm]) -> bool
    ensures { result ≡ all_arms_use number arms.now }
{
    for arm in arms {
        if uses(number, &arm.condition) || uses(number, &arm.value) {
            return true;
        }
    }
    false
}
