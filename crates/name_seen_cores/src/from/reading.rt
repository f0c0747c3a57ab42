//! What an item of FROM reads: a table, a view or a subquery.
ghost use Rattle.std.specs.Prelude.{◌≡◌, ℕ, List as Items, IfOk};
ghost use Rattle.std.specs.Option.{option_map_or};
ghost use Rattle.bag_algebra.specs.Kinds.{kinds_of};
ghost use Rattle.name_meaning.specs.laws.Facts.{facts_of};
ghost use Rattle.name_meaning.specs.Froms.{read_named, read_query, read_table, read_view, table_plain};
ghost use Rattle.name_meaning.specs.Meanings.{QueryMeant};
ghost use Rattle.perm_catalog.specs.Columns.{column_kinds};
ghost use Rattle.name_seen_cores.specs.from.Added.{facts_in};
ghost use Rattle.name_seen_cores.specs.from.Queried.{QueryWhole};
ghost use Rattle.name_seen_parts.specs.FromColumns.{known_names};
ghost use Rattle.name_seen_cores.specs.from.Readings.{IsRead, ReadSeen, external_facts, relation_facts};

use crate::from::facts::Facts;
use crate::from::shown::QueryShown;
use crate::from::viewed::facts_of;
use bag_algebra::{Label, Place};
use contribution::{kinds, kinds_at};
use name_meaning::{Break, Rule, names_at};
use name_seen_parts::{Refusal, kinds_of_columns, named_columns, names_of, settled_columns};
use perm_catalog::{Catalog, Column, TableEntry, ViewEntry};
use perm_values::{Chars, Copyable, Kind, List, NoMemory};
use sql_tree::Name;
use std::alloc::Global;

/// What an item of FROM reads: its columns and their kinds, and its facts where it has no mark.
#[derive(Drop)]
pub struct Reading {
    pub columns: List<Column>,
    pub kinds: List<Kind>,
    pub plain: Facts,
}

impl Reading {
    /// The same with these facts.
    pub(crate) fn with(self, own: Facts) -> Reading
        ensures { result ≡ record self { plain = own } }
    {
        let Reading {
            columns,
            kinds,
            plain: _plain,
        } = self;
        Reading {
            columns,
            kinds,
            plain: own,
        }
    }
}

/// What the table or view of that name gives. The break is that there is none; otherwise it fails only for want of
/// memory.
pub fn read_named(alloc: Global, catalog: &Catalog, name: &Name) -> Result<Reading, Refusal>
    ensures { ReadSeen (read_named catalog.now name.now) result }
{
    match catalog.table(&name.text) {
        Some(table) => Ok(read_table(alloc, &name.text, table)?),
        None => match catalog.view(&name.text) {
            Some(view) => Ok(read_view(alloc, view)?),
            None => {
                let at = name.at;
                Err(Refusal::Break(Break {
                    rule: Rule::UnknownRelation,
                    at,
                }))
            }
        },
    }
}

fn read_table(alloc: Global, name: &Chars, table: &TableEntry) -> Result<Reading, NoMemory>
    ensures { IfOk result (IsRead (read_table name.now table.now)) }
{
    let columns = table.columns.copy(alloc)?;
    let kinds = kinds_of_columns(alloc, table.columns.as_slice())?;
    let plain = table_plain(alloc, name, table, kinds.as_slice())?;
    Ok(Reading {
        columns,
        kinds,
        plain,
    })
}

/// The facts of a table of these kinds without a mark of FROM.
fn table_plain(
    alloc: Global,
    name: &Chars,
    table: &TableEntry,
    kinds: &[Kind],
) -> Result<Facts, NoMemory>
    ensures { kinds.now ≡ column_kinds table.now.columns
        → IfOk result (λ facts. facts_in facts ≡ facts_of (table_plain name.now table.now)) }
{
    let names = names_of(alloc, table.columns.as_slice())?;
    match &table.stored {
        Some(mark) => external(alloc, names.as_slice(), kinds, mark.places.as_slice()),
        None => relation(alloc, name, names, kinds),
    }
}

/// The facts of a source of these places.
pub(crate) fn external(
    alloc: Global,
    names: &[Chars],
    kinds: &[Kind],
    places: &[usize],
) -> Result<Facts, NoMemory>
    ensures { IfOk result (λ facts. facts_in facts
        ≡ external_facts names.now kinds.now places.now) }
{
    let columns = names_at(alloc, names, places)?;
    let place = Place {
        label: Label::External { columns },
        kinds: kinds_at(alloc, kinds, places)?,
    };
    Facts::of_source(alloc, place)
}

/// The facts of a source of all columns, which have these names.
pub(crate) fn relation(
    alloc: Global,
    label: &Chars,
    names: List<Chars>,
    kinds: &[Kind],
) -> Result<Facts, NoMemory>
    ensures { IfOk result (λ facts. facts_in facts ≡ relation_facts label.now names kinds.now) }
{
    let places = List::range(alloc, 0, names.len())?;
    let place = Place {
        label: Label::Relation {
            name: label.copy(alloc)?,
            columns: names,
        },
        kinds: kinds_at(alloc, kinds, places.as_slice())?,
    };
    Facts::of_source(alloc, place)
}

fn read_view(alloc: Global, view: &ViewEntry) -> Result<Reading, NoMemory>
    ensures { (name : Items ℕ) → IfOk result (IsRead (read_view name view.now)) }
{
    let kinds = kinds(alloc, &view.answer.query)?;
    let columns = named_columns(alloc, view.answer.names.as_slice(), kinds.as_slice())?;
    let plain = view_plain(alloc, view, kinds.as_slice())?;
    Ok(Reading {
        columns,
        kinds,
        plain,
    })
}

/// The facts of a view of these kinds without a mark of FROM.
fn view_plain(alloc: Global, view: &ViewEntry, kinds: &[Kind]) -> Result<Facts, NoMemory>
    ensures { kinds.now ≡ kinds_of view.now.answer.query → (name : Items ℕ)
        → IfOk result (λ facts. facts_in facts ≡ facts_of (read_view name view.now).plain) }
{
    let query = &view.answer.query;
    let names = view.answer.names.as_slice();
    match &view.places {
        Some(places) => external(alloc, names, kinds, places.as_slice()),
        None => facts_of(alloc, query),
    }
}

/// What a subquery gives to FROM. It fails only for want of memory.
pub fn read_shown(alloc: Global, shown: QueryShown) -> Result<Reading, NoMemory>
    ensures { (m : QueryMeant) → QueryWhole m shown → IfOk result (IsRead (read_query m)) }
{
    let columns = settled_columns(alloc, shown.columns.as_slice())?;
    let kinds = kinds_of_columns(alloc, columns.as_slice())?;
    let plain = shown_plain(alloc, columns.as_slice(), kinds.as_slice(), shown)?;
    Ok(Reading {
        columns,
        kinds,
        plain,
    })
}

/// The facts of a subquery with these columns without a mark of FROM.
fn shown_plain(
    alloc: Global,
    columns: &[Column],
    kinds: &[Kind],
    shown: QueryShown,
) -> Result<Facts, NoMemory>
    ensures { IfOk result (λ plain. facts_in plain
        ≡ option_map_or (external_facts (known_names columns.now) kinds.now) shown.places
        (facts_in shown.facts)) }
{
    let QueryShown {
        columns: _columns,
        places,
        facts,
    } = shown;
    match places {
        None => Ok(facts),
        Some(places) => {
            let names = names_of(alloc, columns)?;
            external(alloc, names.as_slice(), kinds, places.as_slice())
        }
    }
}
