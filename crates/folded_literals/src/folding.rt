//! An expression with the values of what stands over literals alone in its place.
ghost use Rattle.std.specs.Prelude.{◌≡◌, Bool, true, false, [], IfOk, IfNone, IfSome};
ghost use Rattle.query_laws.specs.SameExpressions.{SameExpr};
ghost use Rattle.folded_literals.specs.Rebuilt.{SameParts, SameSteps, SameArms};
ghost use Rattle.folded_literals.specs.Settled.{is_foldable, is_settled};
ghost use Rattle.folded_literals.specs.built.Settled.{SettledBy, all_settled, all_steps_settled, all_arms_settled};

use crate::constants::constant_kind;
use bag_algebra::{Arm, ChainStep, Expr};
use perm_values::{Boxed, Copyable, List, NoMemory, both};
use row_values::{ExecError, value_alone};
use std::alloc::Global;

/// The expression with a literal in the place of each part over literals alone that meets no fault. It has the expression's
/// values and faults on every row, and its kinds. It fails only for want of memory.
#[cycle(folded)]
pub fn folded(alloc: Global, expr: &Expr) -> Result<Expr, NoMemory>
    ensures same { IfOk result (λ made. SameExpr expr.now made) }
    ensures settled { IfOk result (λ made. is_settled made ≡ true) }
{
    match expr {
        Expr::Col { level, place } => Ok(Expr::Col {
            level: *level,
            place: *place,
        }),
        Expr::Lit { value, kind } => Ok(Expr::Lit {
            value: value.copy(alloc)?,
            kind: *kind,
        }),
        Expr::Op { op, parts } => {
            let parts = folded_parts(alloc, parts.as_slice())?;
            settled(alloc, Expr::Op { op: *op, parts })
        }
        Expr::Chain { first, steps } => {
            let (first, steps) = both(
                folded_boxed(alloc, first),
                folded_steps(alloc, steps.as_slice()),
            )?;
            settled(alloc, Expr::Chain { first, steps })
        }
        Expr::Case { arms, otherwise } => {
            let (arms, otherwise) = both(
                folded_arms(alloc, arms.as_slice()),
                folded_boxed(alloc, otherwise),
            )?;
            settled(alloc, Expr::Case { arms, otherwise })
        }
        Expr::Sub { number } => Ok(Expr::Sub { number: *number }),
        Expr::IsNull { part } => {
            let part = folded_boxed(alloc, part)?;
            settled(alloc, Expr::IsNull { part })
        }
        Expr::IsTruth { truth, part } => {
            let part = folded_boxed(alloc, part)?;
            let truth = *truth;
            settled(alloc, Expr::IsTruth { truth, part })
        }
        Expr::Same { first, second } => {
            let (first, second) = both(folded_boxed(alloc, first), folded_boxed(alloc, second))?;
            settled(alloc, Expr::Same { first, second })
        }
    }
}

#[cycle(folded)]
fn folded_boxed(alloc: Global, part: &Boxed<Expr>) -> Result<Boxed<Expr>, NoMemory>
    ensures same { IfOk result (λ made. SameExpr part.now made) }
    ensures settled { IfOk result (λ made. is_settled made ≡ true) }
{
    let made = folded(alloc, part.get())?;
    Boxed::new(alloc, made)
}

#[cycle(folded)]
fn folded_parts(alloc: Global, parts: &[Expr]) -> Result<List<Expr>, NoMemory>
    ensures same { IfOk result (λ made. SameParts parts.now made) }
    ensures settled { IfOk result (λ made. all_settled made ≡ true) }
{
    let mut made = List::new(alloc);
    for part in parts {
        made.push(folded(alloc, part)?)?;
    }
    Ok(made)
}

#[cycle(folded)]
fn folded_steps(alloc: Global, steps: &[ChainStep]) -> Result<List<ChainStep>, NoMemory>
    ensures same { IfOk result (λ made. SameSteps steps.now made) }
    ensures settled { IfOk result (λ made. all_steps_settled made ≡ true) }
{
    let mut made = List::new(alloc);
    for step in steps {
        let op = step.op;
        let part = folded(alloc, &step.part)?;
        made.push(ChainStep { op, part })?;
    }
    Ok(made)
}

#[cycle(folded)]
fn folded_arms(alloc: Global, arms: &[Arm]) -> Result<List<Arm>, NoMemory>
    ensures same { IfOk result (λ made. SameArms arms.now made) }
    ensures settled { IfOk result (λ made. all_arms_settled made ≡ true) }
{
    let mut made = List::new(alloc);
    for arm in arms {
        let (condition, value) = both(folded(alloc, &arm.condition), folded(alloc, &arm.value))?;
        made.push(Arm { condition, value })?;
    }
    Ok(made)
}

/// The expression, or its literal where it has one. It is settled where the expression's parts are.
fn settled(alloc: Global, expr: Expr) -> Result<Expr, NoMemory>
    ensures same { IfOk result (λ made. SameExpr expr made) }
    ensures settled { (parts : Bool) → SettledBy expr parts → parts ≡ true →
        IfOk result (λ made. is_settled made ≡ true) }
{
    match literal(alloc, &expr) {
        Ok(Some(literal)) => Ok(literal),
        Ok(None) => Ok(expr),
        Err(error) => Err(error),
    }
}

/// The literal of an expression over literals alone that meets no fault.
fn literal(alloc: Global, expr: &Expr) -> Result<Option<Expr>, NoMemory>
    ensures same { IfOk result (λ found. IfSome found (λ made. SameExpr expr.now made)) }
    ensures settled { IfOk result (λ found. IfSome found (λ made. is_settled made ≡ true)) }
    ensures none { IfOk result (λ found. IfNone found (is_foldable expr.now ≡ false)) }
{
    match constant_kind(expr) {
        Some(kind) => match value_alone(alloc, expr) {
            Ok(value) => Ok(Some(Expr::Lit { value, kind })),
            Err(ExecError::Fault(_)) => Ok(None),
            Err(ExecError::NoMemory) => Err(NoMemory),
        },
        None => Ok(None),
    }
}
