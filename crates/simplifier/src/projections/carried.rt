//! Sublinks of a filter over columns of a query, over the rows of that query.
ghost use Rattle.std.specs.Prelude.{◌≡◌, true, IfOk, IsTrue};
ghost use Rattle.simplifier.specs.projections.Carried.{AllCarried, IsCarried, Leads, TestedMoved, all_reach};

use bag_algebra::{Expr, Sublink};
use contribution::moved;
use perm_values::{List, NoMemory};
use query_facts::reach;
use std::alloc::Global;
use std::mem::replace;

/// How many of the places are those of the first columns, in their order.
pub(crate) fn leading(places: &[usize]) -> usize
    ensures { Leads result places.now }
{
    for (number, place) in places.iter().enumerate() {
        if *place != number {
            return number;
        }
    }
    places.len()
}

/// Whether the sublinks' queries read so many of the first columns of the node's row at most.
pub(crate) fn all_reach(first: usize, subs: &[Sublink]) -> bool
    ensures { IsTrue result → all_reach first subs.now ≡ true }
{
    for sub in subs {
        match reach(&sub.query) {
            Some(columns) if columns <= first => (),
            _ => return false,
        }
    }
    true
}

/// The sublinks, their operands over rows of which theirs are the columns at the places. It fails only for want of memory.
pub(crate) fn carried(
    alloc: Global,
    subs: List<Sublink>,
    places: &[usize],
) -> Result<List<Sublink>, NoMemory>
    ensures { IfOk result (λ others. AllCarried places.now subs others) }
{
    let mut others = subs.into_vec();
    let mut all = true;
    for sub in others.iter_mut() {
        if !carry(alloc, sub, places) {
            all = false;
        }
    }
    let others = List::from_vec(others);
    if !all {
        drop(others);
        return Err(NoMemory);
    }
    Ok(others)
}

/// Moves the operand of a sublink, and says whether there was memory for it.
fn carry(alloc: Global, sub: &mut Sublink, places: &[usize]) -> bool
    ensures { IsTrue result → IsCarried places.now sub.old sub.new }
{
    match moved_operand(alloc, &sub.tested, places) {
        Ok(tested) => {
            drop(replace(&mut sub.tested, tested));
            true
        }
        Err(NoMemory) => false,
    }
}

fn moved_operand(
    alloc: Global,
    tested: &Option<Expr>,
    places: &[usize],
) -> Result<Option<Expr>, NoMemory>
    ensures { IfOk result (λ made. TestedMoved places.now tested.now made) }
{
    match tested {
        Some(part) => Ok(Some(moved(alloc, part, places)?)),
        None => Ok(None),
    }
}
