//! The places of a query's witness lists, and the kinds of its columns.
ghost use Rattle.std.specs.Prelude.{◌≡◌, ◌≢◌, ◌↔◌, ◌++◌, [], ◌∷◌, List, Some, All, IfOk, OnOk, IsTrue, map};
ghost use Rattle.bag_algebra.specs.Bags.{Row, Bag, member};
ghost use Rattle.bag_algebra.specs.Children.{subs_shape, sublink_value};
ghost use Rattle.bag_algebra.specs.Fits.{env_fits};
ghost use Rattle.bag_algebra.specs.Kinds.{kinds_of, kind_in, kinds_in, shape, place_kinds};
ghost use Rattle.bag_algebra.specs.Meaning.{Database, denote, meaning, witnesses};
ghost use Rattle.bag_algebra.specs.Outcome.{Good, each};
ghost use Rattle.bag_algebra.specs.WellFormed.{WellFormed};
ghost use Rattle.bag_algebra.specs.declared.expr.Item.{Item};
ghost use Rattle.bag_algebra.specs.declared.query.Aggr.{Aggr};
ghost use Rattle.bag_algebra.specs.declared.query.Sublink.{Sublink};
ghost use Rattle.contribution.specs.HasSublinks.{HasSublinks};
ghost use Rattle.contribution.specs.HeldRows.{held_rows, StandAt};
ghost use Rattle.contribution.specs.Longer.{Longer};
ghost use Rattle.contribution.specs.SublinkValues.{contributing_value};
ghost use Rattle.perm_values.specs.declared.kind.Kind.{Kind};

use bag_algebra::{Aggr, Item, Label, Place, Query, Sublink};
use perm_values::{Copyable, Kind, List, NoMemory};
use std::alloc::Global;

/// The places of a query's witness lists, in order.
#[derive(Drop)]
pub struct PlaceList {
    pub places: List<Place>,
}

/// The places of the query's witness lists: one for each source. Each entry of a witness list stands at its place: it is
/// empty, or one of the rows that the source holds. No row of a good answer is without a list, each of the query's
/// sublinks has its value over the contributing rows alone, and values added to outer rows change neither rows nor lists.
/// It fails only for want of memory.
pub fn shape(alloc: Global, query: &Query) -> Result<PlaceList, NoMemory>
    ensures places { IfOk result (λ list. list.places ≡ shape query.now) }
    ensures entries { IfOk result (λ list. (db : Database) (env : List Row) (t : Row) →
        All (StandAt list.places (held_rows query.now db (Some env))) (witnesses query.now db env t)) }
    ensures no_row_lost { (db : Database) (env : List Row) (bag : Bag) (t : Row) →
        meaning query.now db env ≡ Good bag → IsTrue (member t bag) ↔ (witnesses query.now db env t ≢ []) }
    ensures truth_kept { (subs : List Sublink) (db : Database) (env : List Row) (u : Row) →
        HasSublinks query.now subs →
        each (contributing_value db env u) subs ≡ each (sublink_value db env u) subs }
    ensures growth { (outer : List (List Kind)) (db : Database) (env other : List Row) →
        WellFormed outer query.now → IsTrue (env_fits env outer) → Longer env other →
        denote query.now db env ≡ denote query.now db other }
{
    let mut places = List::new(alloc);
    add_places(alloc, query, &mut places)?;
    Ok(PlaceList { places })
}

/// The kinds of the query's columns. It fails only for want of memory.
pub fn kinds(alloc: Global, query: &Query) -> Result<List<Kind>, NoMemory>
    ensures { IfOk result (λ kinds. kinds ≡ kinds_of query.now) }
{
    let mut found = List::new(alloc);
    add_kinds(alloc, query, &mut found)?;
    Ok(found)
}

/// The kind at a place; one out of range counts as a text. It takes no memory.
pub fn kind_or_text(kinds: &[Kind], place: usize) -> Kind
    ensures { result ≡ kind_in kinds.now place }
{
    if place < kinds.len() {
        kinds[place]
    } else {
        Kind::Text
    }
}

/// The kinds at the places; a place out of range counts as a text. It fails only for want of memory.
pub fn kinds_at(alloc: Global, kinds: &[Kind], places: &[usize]) -> Result<List<Kind>, NoMemory>
    ensures { IfOk result (λ found. found ≡ kinds_in kinds.now places.now) }
{
    let mut found = List::new(alloc);
    for place in places {
        found.push(kind_or_text(kinds, *place))?;
    }
    Ok(found)
}

#[cycle(shape)]
fn add_kinds(alloc: Global, query: &Query, found: &mut List<Kind>) -> Result<(), NoMemory>
    ensures { OnOk result (found.new ≡ found.old ++ kinds_of query.now) }
{
    match query {
        Query::Table { kinds, .. } => add_all(found, kinds.as_slice()),
        Query::Single => Ok(()),
        Query::Base { input, .. } => add_kinds(alloc, input.get(), found),
        Query::Filter { input, .. } => add_kinds(alloc, input.get(), found),
        Query::Project { items, .. } => add_item_kinds(found, items.as_slice()),
        Query::Join { left, right, .. } => {
            add_kinds(alloc, left.get(), found)?;
            add_kinds(alloc, right.get(), found)
        }
        Query::Union { left, .. } => add_kinds(alloc, left.get(), found),
        Query::Intersect { left, .. } => add_kinds(alloc, left.get(), found),
        Query::Except { left, .. } => add_kinds(alloc, left.get(), found),
        Query::Distinct { input } => add_kinds(alloc, input.get(), found),
        Query::Aggregate {
            input,
            groups,
            aggregates,
        } => {
            let mut below = List::new(alloc);
            add_kinds(alloc, input.get(), &mut below)?;
            found.append(kinds_at(alloc, below.as_slice(), groups.as_slice())?)?;
            add_aggregate_kinds(found, aggregates.as_slice())
        }
        Query::Limit { input, .. } => add_kinds(alloc, input.get(), found),
        Query::Prov { input } => {
            add_kinds(alloc, input.get(), found)?;
            let mut places = List::new(alloc);
            add_places(alloc, input.get(), &mut places)?;
            add_place_kinds(found, places.as_slice())
        }
        Query::Apply { left, right, .. } => {
            add_kinds(alloc, left.get(), found)?;
            add_kinds(alloc, right.get(), found)
        }
    }
}

#[cycle(shape)]
fn add_places(alloc: Global, query: &Query, found: &mut List<Place>) -> Result<(), NoMemory>
    ensures { OnOk result (found.new ≡ found.old ++ shape query.now) }
{
    match query {
        Query::Table { .. } => Ok(()),
        Query::Single => Ok(()),
        Query::Base {
            input,
            places,
            label,
        } => {
            let mut below = List::new(alloc);
            add_kinds(alloc, input.get(), &mut below)?;
            add_source(alloc, found, below.as_slice(), places.as_slice(), label)
        }
        Query::Filter { input, subs, .. } => {
            add_places(alloc, input.get(), found)?;
            add_sub_places(alloc, subs.as_slice(), found)
        }
        Query::Project { input, subs, .. } => {
            add_places(alloc, input.get(), found)?;
            add_sub_places(alloc, subs.as_slice(), found)
        }
        Query::Join {
            left,
            right,
            subs,
            ..
        } => {
            add_places(alloc, left.get(), found)?;
            add_places(alloc, right.get(), found)?;
            add_sub_places(alloc, subs.as_slice(), found)
        }
        Query::Union { left, right, .. } => {
            add_places(alloc, left.get(), found)?;
            add_places(alloc, right.get(), found)
        }
        Query::Intersect { left, right, .. } => {
            add_places(alloc, left.get(), found)?;
            add_places(alloc, right.get(), found)
        }
        Query::Except { left, right, .. } => {
            add_places(alloc, left.get(), found)?;
            add_places(alloc, right.get(), found)
        }
        Query::Distinct { input } => add_places(alloc, input.get(), found),
        Query::Aggregate { input, .. } => add_places(alloc, input.get(), found),
        Query::Limit { input, .. } => add_places(alloc, input.get(), found),
        Query::Prov { .. } => Ok(()),
        Query::Apply { left, right, .. } => {
            add_places(alloc, left.get(), found)?;
            add_places(alloc, right.get(), found)
        }
    }
}

/// The places of the sublinks' queries, in the order of their numbers.
#[cycle(shape)]
fn add_sub_places(alloc: Global, subs: &[Sublink], found: &mut List<Place>) -> Result<(), NoMemory>
    ensures { OnOk result (found.new ≡ found.old ++ subs_shape subs.now) }
{
    for sub in subs {
        add_places(alloc, &sub.query, found)?;
    }
    Ok(())
}

/// The place of a source whose input has columns of these kinds.
fn add_source(
    alloc: Global,
    found: &mut List<Place>,
    below: &[Kind],
    places: &[usize],
    label: &Label,
) -> Result<(), NoMemory>
    ensures { OnOk result (found.new ≡
        found.old ++ (record { label = label.now; kinds = kinds_in below.now places.now }) ∷ []) }
{
    let kinds = kinds_at(alloc, below, places)?;
    let label = label.copy(alloc)?;
    found.push(Place { label, kinds })
}

fn add_all(found: &mut List<Kind>, kinds: &[Kind]) -> Result<(), NoMemory>
    ensures { OnOk result (found.new ≡ found.old ++ kinds.now) }
{
    for kind in kinds {
        found.push(*kind)?;
    }
    Ok(())
}

fn add_item_kinds(found: &mut List<Kind>, items: &[Item]) -> Result<(), NoMemory>
    ensures { OnOk result (found.new ≡ found.old ++ map (λ (item : Item). item.kind) items.now) }
{
    for item in items {
        found.push(item.kind)?;
    }
    Ok(())
}

fn add_aggregate_kinds(found: &mut List<Kind>, aggregates: &[Aggr]) -> Result<(), NoMemory>
    ensures { OnOk result (found.new ≡
        found.old ++ map (λ (aggregate : Aggr). aggregate.kind) aggregates.now) }
{
    for aggregate in aggregates {
        found.push(aggregate.kind)?;
    }
    Ok(())
}

fn add_place_kinds(found: &mut List<Kind>, places: &[Place]) -> Result<(), NoMemory>
    ensures { OnOk result (found.new ≡ found.old ++ place_kinds places.now) }
{
    for place in places {
        add_all(found, place.kinds.as_slice())?;
    }
    Ok(())
}
