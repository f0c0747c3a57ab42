//! Queries as columns of others.
ghost use Rattle.std.specs.Prelude.{◌≡◌, true, false, [], List, IfOk, IfSome};
ghost use Rattle.bag_algebra.specs.declared.expr.Item.{Item};
ghost use Rattle.bag_algebra.specs.declared.query.Query.TheVariants.{Project};
ghost use Rattle.bag_algebra.specs.declared.query.Query.{Query};
ghost use Rattle.simplifier.specs.projections.Sides.{IsBelow, IsSide};

use bag_algebra::{Item, Query, exact_width};
use perm_values::{List, NoMemory};
use simpler_laws::{input_of, own_places};
use std::alloc::Global;

/// A query as columns of another: whether that one is its input, and not itself; where they stand there, and how many it has.
#[derive(Drop)]
pub struct Side {
    pub input: bool,
    pub places: List<usize>,
    pub width: usize,
}

/// The query as columns of its input, where it is a projection without sublinks to columns that leaves out at most half of
/// them; otherwise as its own.
pub(crate) fn side_of(alloc: Global, query: &Query) -> Result<Side, NoMemory>
    ensures { IfOk result (λ side. IsSide query.now side) }
{
    match below(alloc, query)? {
        Some(side) => Ok(side),
        None => whole(alloc, query),
    }
}

/// The query as its own columns.
fn whole(alloc: Global, query: &Query) -> Result<Side, NoMemory>
    ensures { IfOk result (λ side. IsSide query.now side) }
{
    let width = exact_width(query)?;
    let places = List::range(alloc, 0, width)?;
    Ok(Side {
        input: false,
        places,
        width,
    })
}

/// The query as columns of its input, where it is a projection without sublinks to columns that leaves out at most half of
/// them.
pub(crate) fn below(alloc: Global, query: &Query) -> Result<Option<Side>, NoMemory>
    ensures { IfOk result (λ found. IfSome found (λ side. (side.input ≡ true) × IsBelow query.now side)) }
{
    match query {
        Query::Project { input, items, subs } => {
            if subs.is_empty() {
                return columns_below(alloc, input.get(), items);
            }
            Ok(None)
        }
        _ => Ok(None),
    }
}

/// The same of a projection without sublinks of the query to the items.
fn columns_below(alloc: Global, query: &Query, items: &List<Item>) -> Result<Option<Side>, NoMemory>
    ensures { IfOk result (λ found. IfSome found (λ side.
        (side.input ≡ true) × IsBelow (Project query.now items.now []) side)) }
{
    let width = exact_width(query)?;
    let Some(places) = own_places(alloc, items.as_slice())? else {
        return Ok(None);
    };
    if leaves_out_more_than_half(places.len(), width) {
        return Ok(None);
    }
    Ok(Some(Side {
        input: true,
        places,
        width,
    }))
}

fn leaves_out_more_than_half(columns: usize, width: usize) -> bool {
    columns < width / 2
}

/// The query below a projection, or the query itself.
pub(crate) fn under(query: Query, input: bool) -> Query
    ensures itself { input ≡ false → result ≡ query }
    ensures below { input ≡ true → (under : Query) (items : List Item) →
        query ≡ Project under items [] → result ≡ under }
{
    if input {
        return input_of(query);
    }
    query
}
