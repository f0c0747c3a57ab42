//! An expression with the columns of its node's own row at other places.
ghost use Rattle.std.specs.Prelude.{IfOk};
ghost use Rattle.bag_algebra.specs.declared.expr.Expr.TheVariants.{Col};
ghost use Rattle.contribution.specs.MovedColumns.{IsMoved, PartsMoved, StepsMoved, ArmsMoved};

use bag_algebra::{Arm, ChainStep, Expr};
use perm_values::{Boxed, Copyable, Kind, List, NoMemory, Value, both};
use std::alloc::Global;

/// The expression with each column of the node's own row at the place that the order has for it; one without a place is
/// NULL. Columns of outer rows and sublinks stay. Its value on a row is the expression's on the values at the places, and
/// it has the kinds that the expression has over theirs. It fails only for want of memory.
#[cycle(moved)]
pub fn moved(alloc: Global, expr: &Expr, order: &[usize]) -> Result<Expr, NoMemory>
    ensures { IfOk result (λ made. IsMoved order.now expr.now made) }
{
    match expr {
        Expr::Col { level, place } => {
            if *level > 0 {
                return Ok(Expr::Col {
                    level: *level,
                    place: *place,
                });
            }
            Ok(own_column(*place, order))
        }
        Expr::Lit { value, kind } => Ok(Expr::Lit {
            value: value.copy(alloc)?,
            kind: *kind,
        }),
        Expr::Op { op, parts } => Ok(Expr::Op {
            op: *op,
            parts: moved_parts(alloc, parts.as_slice(), order)?,
        }),
        Expr::Chain { first, steps } => {
            let (first, steps) = both(
                moved_boxed(alloc, first, order),
                moved_steps(alloc, steps.as_slice(), order),
            )?;
            Ok(Expr::Chain { first, steps })
        }
        Expr::Case { arms, otherwise } => {
            let (arms, otherwise) = both(
                moved_arms(alloc, arms.as_slice(), order),
                moved_boxed(alloc, otherwise, order),
            )?;
            Ok(Expr::Case { arms, otherwise })
        }
        Expr::Sub { number } => Ok(Expr::Sub { number: *number }),
        Expr::IsNull { part } => Ok(Expr::IsNull {
            part: moved_boxed(alloc, part, order)?,
        }),
        Expr::IsTruth { truth, part } => Ok(Expr::IsTruth {
            truth: *truth,
            part: moved_boxed(alloc, part, order)?,
        }),
        Expr::Same { first, second } => {
            let (first, second) = both(
                moved_boxed(alloc, first, order),
                moved_boxed(alloc, second, order),
            )?;
            Ok(Expr::Same { first, second })
        }
    }
}

/// The column that the order has for the place.
fn own_column(place: usize, order: &[usize]) -> Expr
    ensures { IsMoved order.now (Col 0 place) result }
{
    if place < order.len() {
        return Expr::Col {
            level: 0,
            place: order[place],
        };
    }
    Expr::Lit {
        value: Value::Null,
        kind: Kind::Text,
    }
}

#[cycle(moved)]
fn moved_boxed(alloc: Global, part: &Boxed<Expr>, order: &[usize]) -> Result<Boxed<Expr>, NoMemory>
    ensures { IfOk result (λ made. IsMoved order.now part.now made) }
{
    let made = moved(alloc, part.get(), order)?;
    Boxed::new(alloc, made)
}

#[cycle(moved)]
fn moved_parts(alloc: Global, parts: &[Expr], order: &[usize]) -> Result<List<Expr>, NoMemory>
    ensures { IfOk result (λ made. PartsMoved order.now parts.now made) }
{
    let mut made = List::new(alloc);
    for part in parts {
        made.push(moved(alloc, part, order)?)?;
    }
    Ok(made)
}

#[cycle(moved)]
fn moved_steps(
    alloc: Global,
    steps: &[ChainStep],
    order: &[usize],
) -> Result<List<ChainStep>, NoMemory>
    ensures { IfOk result (λ made. StepsMoved order.now steps.now made) }
{
    let mut made = List::new(alloc);
    for step in steps {
        let op = step.op;
        let part = moved(alloc, &step.part, order)?;
        made.push(ChainStep { op, part })?;
    }
    Ok(made)
}

#[cycle(moved)]
fn moved_arms(alloc: Global, arms: &[Arm], order: &[usize]) -> Result<List<Arm>, NoMemory>
    ensures { IfOk result (λ made. ArmsMoved order.now arms.now made) }
{
    let mut made = List::new(alloc);
    for arm in arms {
        let (condition, value) = both(
            moved(alloc, &arm.condition, order),
            moved(alloc, &arm.value, order),
        )?;
        made.push(Arm { condition, value })?;
    }
    Ok(made)
}
