//! Tests below a projection to columns.
ghost use Rattle.std.specs.Prelude.{◌≡◌, [], IfOk, IfSome};
ghost use Rattle.bag_algebra.specs.declared.expr.Expr.TheVariants.{Col};
ghost use Rattle.contribution.specs.MovedColumns.{PartsMoved};
ghost use Rattle.simpler_laws.specs.Lowered.{AreColumns, IsLowered};

use bag_algebra::{Expr, Item, Sublink};
use contribution::moved;
use perm_values::{List, NoMemory};
use std::alloc::Global;

/// The tests of the rows of a projection, over the columns below it: where it is one to columns, has no sublinks, and there
/// are tests. It fails only for want of memory.
pub fn lowered(
    alloc: Global,
    items: &[Item],
    subs: &[Sublink],
    tests: &[Expr],
) -> Result<Option<List<Expr>>, NoMemory>
    ensures { IfOk result (λ found. IfSome found
        (λ made. (subs.now ≡ []) × IsLowered items.now tests.now made)) }
{
    if tests.is_empty() || !subs.is_empty() {
        return Ok(None);
    }
    let places = own_places(alloc, items)?;
    match places {
        Some(places) => Ok(Some(all_moved(alloc, tests, places.as_slice())?)),
        None => Ok(None),
    }
}

/// The places of the columns of the node's own row that the items are, if all of them are such. It fails only for want of
/// memory.
pub fn own_places(alloc: Global, items: &[Item]) -> Result<Option<List<usize>>, NoMemory>
    ensures { IfOk result (λ found. IfSome found (λ places. AreColumns items.now places)) }
{
    let mut places = List::new(alloc);
    for item in items {
        let Some(place) = own_place(&item.expr) else {
            return Ok(None);
        };
        places.push(place)?;
    }
    Ok(Some(places))
}

/// The place of the column of the node's own row that the expression is, if it is one. It takes no memory.
pub fn own_place(expr: &Expr) -> Option<usize>
    ensures { IfSome result (λ place. expr.now ≡ Col 0 place) }
{
    match expr {
        Expr::Col { level: 0, place } => Some(*place),
        _ => None,
    }
}

fn all_moved(alloc: Global, tests: &[Expr], order: &[usize]) -> Result<List<Expr>, NoMemory>
    ensures { IfOk result (λ made. PartsMoved order.now tests.now made) }
{
    let mut made = List::new(alloc);
    for test in tests {
        made.push(moved(alloc, test, order)?)?;
    }
    Ok(made)
}
