//! What statements over a query rest on, before their query is made and behind that.
ghost use Rattle.std.specs.Prelude.{◌≡◌, [], IfOk};
ghost use Rattle.name_seen_parts.specs.Columns.{columns_of};
ghost use Rattle.name_seen_parts.specs.Named.{scopes_of};
ghost use Rattle.name_seen_parts.specs.Seen.{first_or};
ghost use Rattle.name_seen_parts.specs.Standing.{around_of};
ghost use Rattle.name_meaning.specs.Froms.{settled_columns};
ghost use Rattle.name_meaning.specs.Meanings.{query_means_at};
ghost use Rattle.name_meaning.specs.Statements as words;
ghost use Rattle.name_meaning.specs.Trees.{query_of};
ghost use Rattle.perm_catalog.specs.Sound.{IsSound};
ghost use Rattle.name_inside.specs.Held.{inside_in};
ghost use Rattle.name_statements.specs.Resolves.{stored_breaks};

use crate::seen::{boolean_break, repeats_break, table_limit};
use bag_algebra::Answer;
use name_inside::{Gathered, all_noted, query_inside};
use name_meaning::Break;
use name_seen_cores::QueryShown;
use name_seen_parts::{Around, Scopes, ShownColumn};
use perm_catalog::{Catalog, Column, ViewEntry};
use perm_values::{Chars, List, NoMemory};
use sql_tree::{Name, QueryTree};
use std::alloc::Global;

/// A query that breaks nothing: its answer, the places of its provenance columns where it asks for provenance, its columns
/// as a table has them, and the names of tables and views in it.
#[derive(Drop)]
pub struct Whole {
    pub answer: Answer,
    pub places: Option<List<usize>>,
    pub columns: List<Column>,
    pub names: List<Chars>,
}

/// That the columns of a query at this offset are none of a table of this name.
pub fn stored_break(
    alloc: Global,
    table: &Name,
    at: usize,
    columns: &[ShownColumn],
) -> Result<(), Break>
    ensures { result ≡ first_or (stored_breaks table.now at (settled_columns (columns_of columns.now))) tt }
{
    repeats_break(alloc, at, columns)?;
    boolean_break(at, columns)?;
    table_limit(table, columns.len())
}

/// The answer of it.
pub fn answer_of(whole: Whole) -> Answer
    ensures { result ≡ whole.answer }
{
    let Whole {
        answer,
        places: _places,
        columns: _columns,
        names: _names,
    } = whole;
    answer
}

/// The view that it makes, with the names in it each once.
pub fn entry_of(alloc: Global, whole: Whole) -> Result<ViewEntry, NoMemory>
    ensures { IfOk result (λ entry. entry ≡ record {
      answer = whole.answer;
      places = whole.places;
      names_used = words.all_noted whole.names;
    }) }
{
    let Ok(names_used) = all_noted(alloc, whole.names.as_slice()) else {
        drop(whole);
        return Err(NoMemory);
    };
    let Whole {
        answer,
        places,
        columns: _columns,
        names: _names,
    } = whole;
    Ok(ViewEntry {
        answer,
        places,
        names_used,
    })
}

/// Where a whole query stands.
pub fn around_alone<'a>(
    alloc: Global,
    catalog: &'a Catalog,
    outermost: &'a Scopes<'a>,
) -> Around<'a>
    ensures place { scopes_of outermost.now ≡ [] → around_of result ≡ words.alone }
    ensures catalog { result.catalog.now ≡ catalog.now }
{
    Around {
        alloc,
        catalog,
        outer: outermost,
        may_ask: true,
    }
}

/// What stands inside the query.
pub(crate) fn gathered_in(query: &QueryTree, around: &Around) -> Result<Gathered, NoMemory>
    requires sound { IsSound around.now.catalog.now }
    requires whole { (query_means_at (query_of around.now.catalog.now query.now)
        (around_of around.now)).breaks ≡ [] }
    ensures { IfOk result (λ found. inside_in found
        ≡ (query_means_at (query_of around.now.catalog.now query.now) (around_of around.now)).inside) }
{
    let mut found = Gathered::nothing(around.alloc);
    query_inside(query, around, &mut found)?;
    Ok(found)
}

/// The places of the provenance columns, where the query asks for provenance.
pub(crate) fn places_of(shown: QueryShown) -> Option<List<usize>>
    ensures { result ≡ shown.places }
{
    let QueryShown {
        columns: _columns,
        places,
        facts: _facts,
    } = shown;
    places
}

/// The names of the tables and views in it.
pub(crate) fn names_in(gathered: Gathered) -> List<Chars>
    ensures { result ≡ gathered.names }
{
    let Gathered {
        queries: _queries,
        names,
    } = gathered;
    names
}
