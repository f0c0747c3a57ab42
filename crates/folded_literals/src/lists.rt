//! Items, aggregates and parts that may be left out, folded.
ghost use Rattle.std.specs.Prelude.{◌≡◌, true, IfOk};
ghost use Rattle.contribution.specs.MovedColumns.{Along};
ghost use Rattle.query_laws.specs.EveryExpression.{option_passes, items_pass, arguments_pass};
ghost use Rattle.query_laws.specs.SameExpressions.{SameOptional, SameItem, SameAggregate};
ghost use Rattle.folded_literals.specs.Settled.{is_settled};

use crate::folding::folded;
use bag_algebra::{Aggr, Expr, Item};
use perm_values::{List, NoMemory};
use std::alloc::Global;

/// The items over folded expressions. It fails only for want of memory.
pub fn folded_items(alloc: Global, items: &[Item]) -> Result<List<Item>, NoMemory>
    ensures same { IfOk result (λ made. Along SameItem items.now made) }
    ensures settled { IfOk result (λ made. items_pass is_settled made ≡ true) }
{
    let mut made = List::new(alloc);
    for item in items {
        let kind = item.kind;
        let expr = folded(alloc, &item.expr)?;
        made.push(Item { expr, kind })?;
    }
    Ok(made)
}

/// The aggregates over folded arguments. It fails only for want of memory.
pub fn folded_aggregates(alloc: Global, aggregates: &[Aggr]) -> Result<List<Aggr>, NoMemory>
    ensures same { IfOk result (λ made. Along SameAggregate aggregates.now made) }
    ensures settled { IfOk result (λ made. arguments_pass is_settled made ≡ true) }
{
    let mut made = List::new(alloc);
    for aggregate in aggregates {
        let function = aggregate.function;
        let kind = aggregate.kind;
        let argument = folded_option(alloc, &aggregate.argument)?;
        made.push(Aggr {
            function,
            argument,
            kind,
        })?;
    }
    Ok(made)
}

/// A part that may be left out, folded. It fails only for want of memory.
pub fn folded_option(alloc: Global, part: &Option<Expr>) -> Result<Option<Expr>, NoMemory>
    ensures same { IfOk result (λ made. SameOptional part.now made) }
    ensures settled { IfOk result (λ made. option_passes is_settled made ≡ true) }
{
    match part {
        None => Ok(None),
        Some(expr) => Ok(Some(folded(alloc, expr)?)),
    }
}
