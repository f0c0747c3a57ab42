//! Expressions of a query that stands beside a row, over the two together.
ghost use Rattle.std.specs.Prelude.{◌<◌, List, IfOk};
ghost use Rattle.bag_algebra.specs.declared.expr.Expr.TheVariants.{Col};
ghost use Rattle.bag_algebra.specs.declared.expr.Item.{Item};
ghost use Rattle.query_laws.specs.spines.PlacedColumns.{IsPlaced, PartsPlaced, StepsPlaced, ArmsPlaced, ItemsPlaced};

use bag_algebra::{Arm, ChainStep, Expr, Item};
use perm_values::{Boxed, Copyable, Kind, List, NoMemory, Value, both};
use std::alloc::Global;

/// The expression with the item's expression in the place of each column of its own row, and each column of an outer row one
/// level nearer: so it is over a joined row what it was over the row that the items make of that one, with the joined row as
/// its nearest outer row. A column without an item is NULL; sublinks stay. It fails only for want of memory.
#[cycle(placed)]
pub fn placed(alloc: Global, expr: &Expr, items: &[Item]) -> Result<Expr, NoMemory>
    ensures { IfOk result (λ made. IsPlaced items.now expr.now made) }
{
    match expr {
        Expr::Col { level, place } => {
            if *level > 0 {
                return Ok(outer_column(*level, *place));
            }
            own_column(alloc, *place, items)
        }
        Expr::Lit { value, kind } => Ok(Expr::Lit {
            value: value.copy(alloc)?,
            kind: *kind,
        }),
        Expr::Op { op, parts } => Ok(Expr::Op {
            op: *op,
            parts: placed_parts(alloc, parts.as_slice(), items)?,
        }),
        Expr::Chain { first, steps } => {
            let (first, steps) = both(
                placed_boxed(alloc, first, items),
                placed_steps(alloc, steps.as_slice(), items),
            )?;
            Ok(Expr::Chain { first, steps })
        }
        Expr::Case { arms, otherwise } => {
            let (arms, otherwise) = both(
                placed_arms(alloc, arms.as_slice(), items),
                placed_boxed(alloc, otherwise, items),
            )?;
            Ok(Expr::Case { arms, otherwise })
        }
        Expr::Sub { number } => Ok(Expr::Sub { number: *number }),
        Expr::IsNull { part } => Ok(Expr::IsNull {
            part: placed_boxed(alloc, part, items)?,
        }),
        Expr::IsTruth { truth, part } => Ok(Expr::IsTruth {
            truth: *truth,
            part: placed_boxed(alloc, part, items)?,
        }),
        Expr::Same { first, second } => {
            let (first, second) = both(
                placed_boxed(alloc, first, items),
                placed_boxed(alloc, second, items),
            )?;
            Ok(Expr::Same { first, second })
        }
    }
}

/// A column of an outer row, one level nearer.
fn outer_column(level: usize, place: usize) -> Expr
    requires { 0 < level }
    ensures { (items : List Item) → IsPlaced items (Col level place) result }
{
    Expr::Col {
        level: level - 1,
        place,
    }
}

/// The item at the place of an own column.
fn own_column(alloc: Global, place: usize, items: &[Item]) -> Result<Expr, NoMemory>
    ensures { IfOk result (λ made. IsPlaced items.now (Col 0 place) made) }
{
    if place < items.len() {
        return items[place].expr.copy(alloc);
    }
    Ok(Expr::Lit {
        value: Value::Null,
        kind: Kind::Text,
    })
}

#[cycle(placed)]
fn placed_boxed(alloc: Global, part: &Boxed<Expr>, items: &[Item]) -> Result<Boxed<Expr>, NoMemory>
    ensures { IfOk result (λ made. IsPlaced items.now part.now made) }
{
    let made = placed(alloc, part.get(), items)?;
    Boxed::new(alloc, made)
}

#[cycle(placed)]
fn placed_parts(alloc: Global, parts: &[Expr], items: &[Item]) -> Result<List<Expr>, NoMemory>
    ensures { IfOk result (λ made. PartsPlaced items.now parts.now made) }
{
    let mut made = List::new(alloc);
    for part in parts {
        made.push(placed(alloc, part, items)?)?;
    }
    Ok(made)
}

#[cycle(placed)]
fn placed_steps(
    alloc: Global,
    steps: &[ChainStep],
    items: &[Item],
) -> Result<List<ChainStep>, NoMemory>
    ensures { IfOk result (λ made. StepsPlaced items.now steps.now made) }
{
    let mut made = List::new(alloc);
    for step in steps {
        let op = step.op;
        let part = placed(alloc, &step.part, items)?;
        made.push(ChainStep { op, part })?;
    }
    Ok(made)
}

#[cycle(placed)]
fn placed_arms(alloc: Global, arms: &[Arm], items: &[Item]) -> Result<List<Arm>, NoMemory>
    ensures { IfOk result (λ made. ArmsPlaced items.now arms.now made) }
{
    let mut made = List::new(alloc);
    for arm in arms {
        let (condition, value) = both(
            placed(alloc, &arm.condition, items),
            placed(alloc, &arm.value, items),
        )?;
        made.push(Arm { condition, value })?;
    }
    Ok(made)
}

/// Other items over the row that the items make, likewise.
pub(crate) fn placed_items(
    alloc: Global,
    others: &[Item],
    items: &[Item],
) -> Result<List<Item>, NoMemory>
    ensures { IfOk result (λ made. ItemsPlaced items.now others.now made) }
{
    let mut made = List::new(alloc);
    for item in others {
        let kind = item.kind;
        let expr = placed(alloc, &item.expr, items)?;
        made.push(Item { expr, kind })?;
    }
    Ok(made)
}
