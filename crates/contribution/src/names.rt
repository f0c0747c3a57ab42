//! The names of the columns of places.
ghost use Rattle.std.specs.Prelude.{◌≡◌, ◌++◌, ◌+◌, ℕ, List as ListOf, IfOk, OnOk, map};
ghost use Rattle.bag_algebra.specs.PlaceNames.{place_name, label_names, place_names, relations_of};
ghost use Rattle.contribution.specs.RelationNumbers.{HasPut, Numbers, earlier_places, number_in};

use crate::places::PlaceList;
use bag_algebra::{Label, Place};
use indexmap::IndexMap;
use perm_values::{Chars, Copyable, List, NoMemory};
use std::alloc::Global;

/// The names of the columns of all places, in order: `prov_R_column` at the first place of a relation R and
/// `prov_R_n_column` at the nth further place of the same name; external columns keep their names. It fails only for want
/// of memory.
pub fn prov_names(alloc: Global, places: &PlaceList) -> Result<List<Chars>, NoMemory>
    ensures { IfOk result (λ names. names ≡ place_names places.now.places) }
{
    let mut names = List::new(alloc);
    let mut numbers = IndexMap::new(alloc);
    let places = places.places.as_slice();
    for place in places {
        let number = number(&numbers, &place.label);
        add_names(alloc, &mut names, number, &place.label)?;
        put_number(alloc, &mut numbers, place, number + 1)?;
    }
    Ok(names)
}

/// How many places of the label's relation stand before.
fn number(numbers: &IndexMap<Chars, usize>, label: &Label) -> usize
    ensures { (earlier : ListOf (ListOf ℕ)) → Numbers numbers.now.entries earlier
        → result ≡ earlier_places earlier label.now }
{
    match label {
        Label::Relation { name, .. } => number_of(numbers, name),
        Label::External { .. } => 0,
    }
}

fn number_of(numbers: &IndexMap<Chars, usize>, name: &Chars) -> usize
    ensures { result ≡ number_in numbers.now.entries name.now }
{
    match numbers.get(name) {
        Some(number) => *number,
        None => 0,
    }
}

/// Notes that with this place there are so many of its relation.
fn put_number(
    alloc: Global,
    numbers: &mut IndexMap<Chars, usize>,
    place: &Place,
    number: usize,
) -> Result<(), NoMemory>
    ensures { (earlier : ListOf (ListOf ℕ)) → Numbers numbers.old.entries earlier
        → number ≡ earlier_places earlier place.now.label + 1
        → OnOk result (Numbers numbers.new.entries (earlier ++ relations_of place.now)) }
{
    match &place.label {
        Label::Relation { name, .. } => set_number(alloc, numbers, name, number),
        Label::External { .. } => Ok(()),
    }
}

fn set_number(
    alloc: Global,
    numbers: &mut IndexMap<Chars, usize>,
    name: &Chars,
    number: usize,
) -> Result<(), NoMemory>
    ensures { OnOk result (HasPut numbers.old.entries numbers.new.entries name.now number) }
{
    numbers.insert(name.copy(alloc)?, number)?;
    Ok(())
}

/// Adds the names of the columns of a place with that label, before which so many places of its relation stand.
fn add_names(
    alloc: Global,
    names: &mut List<Chars>,
    number: usize,
    label: &Label,
) -> Result<(), NoMemory>
    ensures { (earlier : ListOf (ListOf ℕ)) → number ≡ earlier_places earlier label.now
        → OnOk result (names.new ≡ names.old ++ label_names earlier label.now) }
{
    match label {
        Label::Relation { name, columns } => {
            add_relation_names(alloc, names, name, number, columns.as_slice())
        }
        Label::External { columns } => names.append(columns.copy(alloc)?),
    }
}

fn add_relation_names(
    alloc: Global,
    names: &mut List<Chars>,
    relation: &Chars,
    number: usize,
    columns: &[Chars],
) -> Result<(), NoMemory>
    ensures { OnOk result (names.new ≡ names.old ++ map (place_name relation.now number) columns.now) }
{
    for column in columns {
        names.push(provenance_name(alloc, relation, number, column)?)?;
    }
    Ok(())
}

/// The name of a column of a relation's place, before which so many places of the same name stand.
fn provenance_name(
    alloc: Global,
    relation: &Chars,
    number: usize,
    column: &Chars,
) -> Result<Chars, NoMemory>
    ensures { IfOk result (λ name. name ≡ place_name relation.now number column.now) }
{
    let mut name = String::from_str(alloc, "prov_")?;
    name.push_str(relation.as_str())?;
    name.push_str("_")?;
    if number > 0 {
        name.push_str(number.to_string(alloc)?.as_str())?;
        name.push_str("_")?;
    }
    name.push_str(column.as_str())?;
    Chars::from_text(alloc, name.as_str())
}
