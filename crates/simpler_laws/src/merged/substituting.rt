//! An expression over items with the items' expressions in the place of their columns.
ghost use Rattle.std.specs.Prelude.{IfOk};
ghost use Rattle.bag_algebra.specs.declared.expr.Expr.TheVariants.{Col};
ghost use Rattle.simpler_laws.specs.merged.Substituted.{IsSubstituted, PartsSubstituted, StepsSubstituted, ArmsSubstituted};

use bag_algebra::{Arm, ChainStep, Expr, Item};
use perm_values::{Boxed, Copyable, Kind, List, NoMemory, Value, both};
use std::alloc::Global;

/// The expression with the item's expression in the place of each column of its own row; of one beyond the items NULL.
/// Columns of outer rows and sublinks stay. Where no item can fault, its value on a row is the expression's on the row of the
/// items, and it has the kinds that the expression has over theirs. It fails only for want of memory.
#[cycle(substituted)]
pub fn substituted(alloc: Global, expr: &Expr, lower: &[Item]) -> Result<Expr, NoMemory>
    ensures { IfOk result (λ made. IsSubstituted lower.now expr.now made) }
{
    match expr {
        Expr::Col { level, place } => {
            if *level > 0 {
                return Ok(Expr::Col {
                    level: *level,
                    place: *place,
                });
            }
            own_column(alloc, *place, lower)
        }
        Expr::Lit { value, kind } => Ok(Expr::Lit {
            value: value.copy(alloc)?,
            kind: *kind,
        }),
        Expr::Op { op, parts } => Ok(Expr::Op {
            op: *op,
            parts: substituted_parts(alloc, parts.as_slice(), lower)?,
        }),
        Expr::Chain { first, steps } => {
            let (first, steps) = both(
                substituted_boxed(alloc, first, lower),
                substituted_steps(alloc, steps.as_slice(), lower),
            )?;
            Ok(Expr::Chain { first, steps })
        }
        Expr::Case { arms, otherwise } => {
            let (arms, otherwise) = both(
                substituted_arms(alloc, arms.as_slice(), lower),
                substituted_boxed(alloc, otherwise, lower),
            )?;
            Ok(Expr::Case { arms, otherwise })
        }
        Expr::Sub { number } => Ok(Expr::Sub { number: *number }),
        Expr::IsNull { part } => Ok(Expr::IsNull {
            part: substituted_boxed(alloc, part, lower)?,
        }),
        Expr::IsTruth { truth, part } => Ok(Expr::IsTruth {
            truth: *truth,
            part: substituted_boxed(alloc, part, lower)?,
        }),
        Expr::Same { first, second } => {
            let (first, second) = both(
                substituted_boxed(alloc, first, lower),
                substituted_boxed(alloc, second, lower),
            )?;
            Ok(Expr::Same { first, second })
        }
    }
}

/// The expression of the item at the place.
fn own_column(alloc: Global, place: usize, lower: &[Item]) -> Result<Expr, NoMemory>
    ensures { IfOk result (λ made. IsSubstituted lower.now (Col 0 place) made) }
{
    if place < lower.len() {
        return lower[place].expr.copy(alloc);
    }
    Ok(Expr::Lit {
        value: Value::Null,
        kind: Kind::Text,
    })
}

#[cycle(substituted)]
fn substituted_boxed(
    alloc: Global,
    part: &Boxed<Expr>,
    lower: &[Item],
) -> Result<Boxed<Expr>, NoMemory>
    ensures { IfOk result (λ made. IsSubstituted lower.now part.now made) }
{
    let made = substituted(alloc, part.get(), lower)?;
    Boxed::new(alloc, made)
}

#[cycle(substituted)]
fn substituted_parts(alloc: Global, parts: &[Expr], lower: &[Item]) -> Result<List<Expr>, NoMemory>
    ensures { IfOk result (λ made. PartsSubstituted lower.now parts.now made) }
{
    let mut made = List::new(alloc);
    for part in parts {
        made.push(substituted(alloc, part, lower)?)?;
    }
    Ok(made)
}

#[cycle(substituted)]
fn substituted_steps(
    alloc: Global,
    steps: &[ChainStep],
    lower: &[Item],
) -> Result<List<ChainStep>, NoMemory>
    ensures { IfOk result (λ made. StepsSubstituted lower.now steps.now made) }
{
    let mut made = List::new(alloc);
    for step in steps {
        let op = step.op;
        let part = substituted(alloc, &step.part, lower)?;
        made.push(ChainStep { op, part })?;
    }
    Ok(made)
}

#[cycle(substituted)]
fn substituted_arms(alloc: Global, arms: &[Arm], lower: &[Item]) -> Result<List<Arm>, NoMemory>
    ensures { IfOk result (λ made. ArmsSubstituted lower.now arms.now made) }
{
    let mut made = List::new(alloc);
    for arm in arms {
        let (condition, value) = both(
            substituted(alloc, &arm.condition, lower),
            substituted(alloc, &arm.value, lower),
        )?;
        made.push(Arm { condition, value })?;
    }
    Ok(made)
}
