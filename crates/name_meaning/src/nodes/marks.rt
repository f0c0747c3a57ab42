//! Sources of provenance: what an item of FROM reads, with the columns to which it is followed.
ghost use Rattle.std.specs.Prelude.{◌≡◌, [], map, position, IfOk};
ghost use Rattle.bag_algebra.specs.declared.query.Label.TheVariants.{External, Relation};
ghost use Rattle.bag_algebra.specs.declared.query.Query.TheVariants.{Base, Table};
ghost use Rattle.perm_catalog.specs.Columns.{column_kinds};
ghost use Rattle.name_meaning.specs.Froms.{all_places, external, named_so, names_of, place_of, table_columns, table_plain, texts_of};

use crate::columns::names_at;
use crate::nodes::together::beside;
use bag_algebra::{Label, Query};
use perm_catalog::{Column, TableEntry};
use perm_values::{Chars, Copyable, Kind, List, NoMemory, both};
use sql_tree::Name;
use std::alloc::Global;

fn column_kinds(alloc: Global, columns: &[Column]) -> Result<List<Kind>, NoMemory>
    ensures { IfOk result (λ kinds. kinds ≡ column_kinds columns.now) }
{
    let mut kinds = List::new(alloc);
    for column in columns {
        kinds.push(column.kind)?;
    }
    Ok(kinds)
}

/// The names of a table's columns.
pub fn column_names(alloc: Global, columns: &[Column]) -> Result<List<Chars>, NoMemory>
    ensures { IfOk result (λ names. names ≡ names_of (table_columns columns.now)) }
{
    let mut names = List::new(alloc);
    for column in columns {
        names.push(column.name.copy(alloc)?)?;
    }
    Ok(names)
}

/// The query as a source of its columns at these places, under their names.
pub fn external(
    alloc: Global,
    query: Query,
    names: &[Chars],
    places: &[usize],
) -> Result<Query, NoMemory>
    ensures { IfOk result (λ made. made ≡ external query names.now places.now) }
{
    let columns = names_at(alloc, names, places);
    let places = List::copy_of(alloc, places);
    let (query, (columns, places)) = beside(query, both(columns, places))?;
    Query::base(alloc, query, places, Label::External { columns })
}

/// The query as a source of all its columns, under the name of a relation.
pub fn whole_source(
    alloc: Global,
    query: Query,
    label: &Chars,
    names: List<Chars>,
) -> Result<Query, NoMemory>
    ensures { IfOk result (λ made. made ≡ Base query (all_places names) (Relation label.now names)) }
{
    let places = List::range(alloc, 0, names.len());
    let name = label.copy(alloc);
    let (query, (columns, (places, name))) = beside(query, beside(names, both(places, name)))?;
    Query::base(alloc, query, places, Label::Relation { name, columns })
}

/// The place of the first column of this name.
fn position_of(names: &[Chars], name: &Chars) -> Option<usize>
    ensures { result ≡ position (named_so name.now) names.now }
{
    names.iter().position(|other| name == other)
}

/// The place of the first column of this name; 0 where there is none.
fn place_of(names: &[Chars], name: &Chars) -> usize
    ensures { result ≡ place_of names.now name.now }
{
    match position_of(names, name) {
        None => 0,
        Some(place) => place,
    }
}

fn attribute_places(
    alloc: Global,
    names: &[Chars],
    attributes: &[Name],
) -> Result<List<usize>, NoMemory>
    ensures { IfOk result (λ places. places ≡ map (place_of names.now) (texts_of attributes.now)) }
{
    let mut places = List::new(alloc);
    for attribute in attributes {
        places.push(place_of(names, &attribute.text))?;
    }
    Ok(places)
}

fn attribute_names(alloc: Global, attributes: &[Name]) -> Result<List<Chars>, NoMemory>
    ensures { IfOk result (λ names. names ≡ texts_of attributes.now) }
{
    let mut names = List::new(alloc);
    for attribute in attributes {
        names.push(attribute.text.copy(alloc)?)?;
    }
    Ok(names)
}

/// The query as a source of these attributes among the names of its columns.
pub fn attributes_of(
    alloc: Global,
    query: Query,
    names: &[Chars],
    attributes: &[Name],
) -> Result<Query, NoMemory>
    ensures { IfOk result (λ made. made ≡ Base query
        (map (place_of names.now) (texts_of attributes.now)) (External (texts_of attributes.now))) }
{
    let places = attribute_places(alloc, names, attributes);
    let columns = attribute_names(alloc, attributes);
    let (query, (places, columns)) = beside(query, both(places, columns))?;
    Query::base(alloc, query, places, Label::External { columns })
}

/// The rows of a table.
pub fn table_rows(alloc: Global, table: &TableEntry) -> Result<Query, NoMemory>
    ensures { IfOk result (λ made. made ≡ Table table.now.id (column_kinds table.now.columns)) }
{
    let kinds = column_kinds(alloc, table.columns.as_slice())?;
    Ok(Query::Table {
        id: table.id,
        kinds,
    })
}

/// A table as FROM reads it without a mark: a source of all its columns, or of the provenance columns that it stores.
pub fn table_plain(alloc: Global, name: &Chars, table: &TableEntry) -> Result<Query, NoMemory>
    ensures { IfOk result (λ made. made ≡ table_plain name.now table.now) }
{
    let names = column_names(alloc, table.columns.as_slice());
    let rows = table_rows(alloc, table);
    let (names, rows) = both(names, rows)?;
    match &table.stored {
        None => whole_source(alloc, rows, name, names),
        Some(stored) => {
            let made = external(alloc, rows, names.as_slice(), stored.places.as_slice());
            drop(names);
            made
        }
    }
}
