//! Projections to all columns.
ghost use Rattle.std.specs.Prelude.{◌≡◌, [], List, length, IfOk, IsTrue};
ghost use Rattle.std.specs.List.{range_with_len};
ghost use Rattle.bag_algebra.specs.Kinds.{width_of};
ghost use Rattle.bag_algebra.specs.Rewriting.{Stands};
ghost use Rattle.bag_algebra.specs.declared.query.Query.{Query};
ghost use Rattle.simpler_laws.specs.Lowered.{AreColumns};
ghost use Rattle.simplifier.specs.projections.Sides.{IsIdentityProjection};

use bag_algebra::{Item, Query, exact_width};
use perm_values::NoMemory;
use simpler_laws::{input_of, own_place};

/// What stands for whatever the query stands for. A projection without sublinks to all columns of its input, in their order,
/// is the input. It fails where the query failed, and takes no memory.
pub fn whole_dropped(query: Result<Query, NoMemory>) -> Result<Query, NoMemory>
    ensures { (q : Query) → IfOk query (λ b. Stands q b) → IfOk result (λ p. Stands q p) }
{
    let query = query?;
    if is_whole(&query) {
        return Ok(input_of(query));
    }
    Ok(query)
}

/// Whether the query is a projection without sublinks to all columns of its input, in their order.
fn is_whole(query: &Query) -> bool
    ensures { IsTrue result → IsIdentityProjection query.now }
{
    match query {
        Query::Project { input, items, subs } => {
            subs.is_empty() && are_all(items.as_slice(), input.get())
        }
        _ => false,
    }
}

/// Whether the items are all columns of the query, in their order.
fn are_all(items: &[Item], query: &Query) -> bool
    ensures { IsTrue result → AreColumns items.now (range_with_len 0 (width_of query.now)) }
{
    if !in_order(items) {
        return false;
    }
    match exact_width(query) {
        Ok(width) => items.len() == width,
        Err(NoMemory) => false,
    }
}

/// Whether the items are columns of the node's own row, from the first on.
fn in_order(items: &[Item]) -> bool
    ensures { IsTrue result → AreColumns items.now (range_with_len 0 (length items.now)) }
{
    for (number, item) in items.iter().enumerate() {
        let Some(place) = own_place(&item.expr) else {
            return false;
        };
        if place != number {
            return false;
        }
    }
    true
}
