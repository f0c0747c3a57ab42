//! The conjuncts of a condition, and a condition of such.
ghost use Rattle.std.specs.Prelude.{◌≡◌, ◌∷◌, ◌++◌, [], IfOk};
ghost use Rattle.null_logic.specs.Operators.{is_and};
ghost use Rattle.contribution.specs.Conjunctions.{all_hold};
ghost use Rattle.simpler_laws.specs.Conjuncts.{conjuncts, is_always};
ghost use Rattle.simpler_laws.specs.built.Conjuncts.{all_conjuncts};

use bag_algebra::Expr;
use contribution::always;
use null_logic::{Operator, is_and};
use perm_values::{Copyable, List, NoMemory, Value};
use std::alloc::Global;

/// The conjuncts of a condition: those of the parts of AND, none of TRUE, and otherwise the condition itself. It fails only
/// for want of memory.
#[cycle(conjuncts)]
pub fn conjuncts(alloc: Global, condition: &Expr) -> Result<List<Expr>, NoMemory>
    ensures { IfOk result (λ found. found ≡ conjuncts condition.now) }
{
    match condition {
        Expr::Col { .. } => alone(alloc, condition),
        Expr::Lit { value, .. } => {
            if is_always(value) {
                return Ok(List::new(alloc));
            }
            alone(alloc, condition)
        }
        Expr::Op { op, parts } => {
            if is_and(*op) {
                return all_conjuncts(alloc, parts.as_slice());
            }
            alone(alloc, condition)
        }
        Expr::Chain { .. } => alone(alloc, condition),
        Expr::Case { .. } => alone(alloc, condition),
        Expr::Sub { .. } => alone(alloc, condition),
        Expr::IsNull { .. } => alone(alloc, condition),
        Expr::IsTruth { .. } => alone(alloc, condition),
        Expr::Same { .. } => alone(alloc, condition),
    }
}

#[cycle(conjuncts)]
fn all_conjuncts(alloc: Global, parts: &[Expr]) -> Result<List<Expr>, NoMemory>
    ensures { IfOk result (λ found. found ≡ all_conjuncts parts.now) }
{
    let mut found = List::new(alloc);
    for part in parts {
        found.append(conjuncts(alloc, part)?)?;
    }
    Ok(found)
}

fn alone(alloc: Global, condition: &Expr) -> Result<List<Expr>, NoMemory>
    ensures { IfOk result (λ found. found ≡ condition.now ∷ []) }
{
    let mut found = List::new(alloc);
    found.push(condition.copy(alloc)?)?;
    Ok(found)
}

/// Whether the value is TRUE. It takes no memory.
pub fn is_always(value: &Value) -> bool
    ensures { result ≡ is_always value.now }
{
    match value {
        Value::Null => false,
        Value::Integer(_) => false,
        Value::Text(_) => false,
        Value::Boolean(truth) => *truth,
    }
}

/// The conjuncts of a condition, and then the tests. It fails only for want of memory.
pub fn with_conjuncts(
    alloc: Global,
    condition: &Expr,
    tests: &[Expr],
) -> Result<List<Expr>, NoMemory>
    ensures { IfOk result (λ all. all ≡ conjuncts condition.now ++ tests.now) }
{
    let mut all = conjuncts(alloc, condition)?;
    all.append(List::copy_of(alloc, tests)?)?;
    Ok(all)
}

/// All tests at once: the test itself where there is one, TRUE where there is none. It fails only for want of memory.
pub fn conjunction(alloc: Global, tests: &[Expr]) -> Result<Expr, NoMemory>
    ensures { IfOk result (λ test. test ≡ all_hold tests.now) }
{
    if tests.len() == 1 {
        return tests[0].copy(alloc);
    }
    if tests.is_empty() {
        return Ok(always());
    }
    let parts = List::copy_of(alloc, tests)?;
    Ok(Expr::Op {
        op: Operator::And,
        parts,
    })
}
