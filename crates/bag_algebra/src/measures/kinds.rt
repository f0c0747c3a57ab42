//! How many columns a query has.
#![tactic(auto, using(crate::proofs::Smaller::smaller))]

ghost use Rattle.std.specs.Prelude.{◌≡◌, ◌≤◌, ◌-◌, ◌^◌, IfErr, IfOk, min, length};
ghost use Rattle.bag_algebra.specs.Children.{inputs_shape, subs_shape};
ghost use Rattle.bag_algebra.specs.Inputs.{given};
ghost use Rattle.bag_algebra.specs.Kinds.{width_of, place_kinds, shape};

use crate::children::Inputs;
use crate::query::{Query, Sublink};
use perm_values::NoMemory;

/// The number of columns. It stays at `usize::MAX` where it would be greater. It takes no memory.
pub fn width(query: &Query) -> usize
    ensures { result ≡ min (width_of query.now) (2 ^ 64 - 1) }
{
    match query {
        Query::Table { kinds, .. } => kinds.len(),
        Query::Single => 0,
        Query::Base { input, .. } => width(input.get()),
        Query::Filter { input, .. } => width(input.get()),
        Query::Project { items, .. } => items.len(),
        Query::Join { left, right, .. } => width(left.get()).saturating_add(width(right.get())),
        Query::Apply { left, right, .. } => width(left.get()).saturating_add(width(right.get())),
        Query::Union { left, .. } => width(left.get()),
        Query::Intersect { left, .. } => width(left.get()),
        Query::Except { left, .. } => width(left.get()),
        Query::Distinct { input } => width(input.get()),
        Query::Aggregate {
            groups,
            aggregates,
            ..
        } => groups.len() + aggregates.len(),
        Query::Limit { input, .. } => width(input.get()),
        Query::Prov { input } => width(input.get()).saturating_add(places_width(input.get())),
    }
}

/// The number of columns. Want of memory comes only where it isn't below `usize::MAX`, at which `width` stays.
pub fn exact_width(query: &Query) -> Result<usize, NoMemory>
    ensures columns { IfOk result (λ count. count ≡ width_of query.now) }
    ensures lacking { IfErr result (λ _. 2 ^ 64 - 1 ≤ width_of query.now) }
{
    let count = width(query);
    if count == usize::MAX {
        return Err(NoMemory);
    }
    Ok(count)
}

/// The number of the columns of all places of the query's witness lists.
#[cycle(places_width)]
fn places_width(query: &Query) -> usize
    ensures { result ≡ min (length (place_kinds (shape query.now))) (2 ^ 64 - 1) }
{
    match query {
        Query::Base { places, .. } => places.len(),
        Query::Prov { .. } => 0,
        _ => inputs_places_width(query.inputs()).saturating_add(subs_places_width(
            query.sublinks(),
        )),
    }
}

#[cycle(places_width)]
fn inputs_places_width(inputs: Inputs<'_>) -> usize
    ensures { result ≡ min (length (place_kinds (inputs_shape (given inputs.entry)))) (2 ^ 64 - 1) }
{
    match inputs {
        Inputs::Zero => 0,
        Inputs::One(input) => places_width(input),
        Inputs::Two(left, right) => places_width(left).saturating_add(places_width(right)),
    }
}

#[cycle(places_width)]
fn subs_places_width(subs: &[Sublink]) -> usize
    ensures { result ≡ min (length (place_kinds (subs_shape subs.now))) (2 ^ 64 - 1) }
{
    let mut total: usize = 0;
    for sub in subs {
        total = total.saturating_add(places_width(&sub.query));
    }
    total
}
