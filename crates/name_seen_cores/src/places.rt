//! The provenance columns of a query behind its own.
ghost use Rattle.std.specs.Prelude.{◌≡◌, ◌++◌, length, map, IfOk, OnOk};
ghost use Rattle.std.specs.List.{range_with_len};
ghost use Rattle.bag_algebra.specs.Kinds.{place_kinds};
ghost use Rattle.bag_algebra.specs.PlaceNames.{place_names};
ghost use Rattle.name_meaning.specs.Froms.{named_columns};
ghost use Rattle.name_meaning.specs.Queries.{out_column};
ghost use Rattle.name_seen_parts.specs.Columns.{columns_of};
ghost use Rattle.name_seen_cores.specs.Behind.{PlacesBehind};

use crate::from::{Facts, QueryShown};
use bag_algebra::Place;
use contribution::{PlaceList, prov_names};
use name_seen_parts::ShownColumn;
use perm_values::{Chars, Copyable, Kind, List, NoMemory};
use std::alloc::Global;

/// What a query shows that asks for the provenance of one with these columns and facts.
pub(crate) fn with_places(
    alloc: Global,
    mut columns: List<ShownColumn>,
    facts: Facts,
) -> Result<QueryShown, NoMemory>
    ensures { IfOk result (PlacesBehind columns facts) }
{
    let Facts { places } = facts;
    let list = PlaceList { places };
    let Ok(places) = add_places(alloc, &mut columns, &list) else {
        drop(columns);
        return Err(NoMemory);
    };
    Ok(QueryShown {
        columns,
        places: Some(places),
        facts: Facts::none(alloc),
    })
}

/// The provenance columns of these places behind the columns so far, and where they stand.
fn add_places(
    alloc: Global,
    columns: &mut List<ShownColumn>,
    list: &PlaceList,
) -> Result<List<usize>, NoMemory>
    ensures shown { OnOk result (columns_of columns.new
        ≡ columns_of columns.old ++ map out_column
        (named_columns (place_names list.now.places) (place_kinds list.now.places))) }
    ensures places { IfOk result (λ places. places
        ≡ range_with_len (length columns.old) (length (place_kinds list.now.places))) }
{
    let own = columns.len();
    let kinds = kinds_of_places(alloc, list.places.as_slice())?;
    let names = prov_names(alloc, list)?;
    add_named(alloc, columns, names.as_slice(), kinds.as_slice())?;
    List::range(alloc, own, kinds.len())
}

fn kinds_of_places(alloc: Global, places: &[Place]) -> Result<List<Kind>, NoMemory>
    ensures { IfOk result (λ kinds. kinds ≡ place_kinds places.now) }
{
    let mut kinds = List::new(alloc);
    for place in places {
        add_kinds(alloc, place, &mut kinds)?;
    }
    Ok(kinds)
}

/// The kinds of the place behind those so far.
fn add_kinds(alloc: Global, place: &Place, kinds: &mut List<Kind>) -> Result<(), NoMemory>
    ensures { OnOk result (kinds.new ≡ kinds.old ++ place.now.kinds) }
{
    kinds.append(place.kinds.copy(alloc)?)?;
    Ok(())
}

/// The columns of these names and kinds behind those so far.
fn add_named(
    alloc: Global,
    columns: &mut List<ShownColumn>,
    names: &[Chars],
    kinds: &[Kind],
) -> Result<(), NoMemory>
    ensures { OnOk result (columns_of columns.new ≡ columns_of columns.old
        ++ map out_column (named_columns names.now kinds.now)) }
{
    for at in 0..names.len().min(kinds.len()) {
        columns.push(ShownColumn {
            name: names[at].copy(alloc)?,
            kind: Some(kinds[at]),
        })?;
    }
    Ok(())
}
