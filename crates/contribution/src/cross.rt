//! All rows that the sources of a query could contribute, in all combinations.
ghost use Rattle.std.specs.Prelude.{◌≡◌, ◌++◌, ◌↔◌, [], ◌∷◌, List, None, Contains, IfOk, OnOk, IsTrue};
ghost use Rattle.bag_algebra.specs.Bags.{Row, Bag, member};
ghost use Rattle.bag_algebra.specs.Kinds.{kinds_of, kinds_in, shape, place_kinds};
ghost use Rattle.bag_algebra.specs.Meaning.{Database, meaning, witnesses};
ghost use Rattle.bag_algebra.specs.Means.{Witness, flat};
ghost use Rattle.bag_algebra.specs.Outcome.{Good};
ghost use Rattle.bag_algebra.specs.built.Patterns.{JoinOf, ProjectOf, UnionOf};
ghost use Rattle.bag_algebra.specs.Rewriting.{is_plain};
ghost use Rattle.bag_algebra.specs.Scoped.{over_tables};
ghost use Rattle.bag_algebra.specs.TablesRead.{ReadsAmong};
ghost use Rattle.bag_algebra.specs.WellFormed.{WellFormed};
ghost use Rattle.bag_algebra.specs.declared.query.JoinKind.TheVariants.{Inner};
ghost use Rattle.bag_algebra.specs.declared.query.Query.{end_of-Sublink};
ghost use Rattle.bag_algebra.specs.declared.query.Query.TheVariants.{Single, Table};
ghost use Rattle.contribution.specs.CrossBase.{base_source, table_sources, subs_table_sources, source_query, crossed, cross_base_of};
ghost use Rattle.bag_algebra.specs.ColumnItems.{column_items};
ghost use Rattle.contribution.specs.NullRow.{null_row_of};
ghost use Rattle.contribution.specs.Conjunctions.{always};
ghost use Rattle.contribution.specs.HeldRows.{held_rows, StandAt};
ghost use Rattle.perm_values.specs.declared.kind.Kind.{Kind};

use crate::blank::null_row;
use crate::parts::{always, column_items, join_on, projection};
use crate::places::kinds_at;
use bag_algebra::{JoinKind, Query, Sublink};
use perm_values::{Copyable, Kind, List, NoMemory, both};
use std::alloc::Global;

/// A source over a table: the table, and the places of the source.
#[derive(Drop)]
pub struct TableSource {
    pub id: u64,
    pub kinds: List<Kind>,
    pub places: List<usize>,
}

/// A query of the kinds of the query's places, whose rows are all combinations of, for each place, a row of its source or
/// NULLs; the flattened witness lists of the query's rows are among them, under whatever outer rows. It is never bad,
/// plain, without sublinks, closed, and well formed where the query is, and reads the query's tables alone. It fails only for
/// want of memory.
pub fn cross_base(alloc: Global, query: &Query) -> Result<Query, NoMemory>
    requires { IsTrue (over_tables query.now) }
    ensures made { IfOk result (λ p. p ≡ cross_base_of query.now) }
    ensures kinds { IfOk result (λ p. kinds_of p ≡ place_kinds (shape query.now)) }
    ensures rows { IfOk result (λ p. (db : Database) (env : List Row) →
        (found : Bag) × (meaning p db env ≡ Good found) × ((u : Row) → IsTrue (member u found) ↔
        ((w : Witness) × StandAt (shape query.now) (held_rows query.now db None) w × (flat w ≡ u)))) }
    ensures lists { IfOk result (λ p. (db : Database) (env other : List Row) (t : Row) (w : Witness) →
        Contains (witnesses query.now db env t) w →
        (found : Bag) × (meaning p db other ≡ Good found) × IsTrue (member (flat w) found)) }
    ensures formed { IfOk result (λ p. (outer other : List (List Kind)) →
        WellFormed outer query.now → WellFormed other p) }
    ensures plain { IfOk result (λ p. IsTrue (is_plain p)) }
    ensures tables { IfOk result (λ p. ReadsAmong p query.now) }
{
    let mut sources = List::new(alloc);
    add_sources(alloc, query, &mut sources)?;
    crossed(alloc, sources.as_slice())
}

#[cycle(add_sources)]
fn add_sources(alloc: Global, query: &Query, found: &mut List<TableSource>) -> Result<(), NoMemory>
    ensures { OnOk result (found.new ≡ found.old ++ table_sources query.now) }
{
    match query {
        Query::Table { .. } => Ok(()),
        Query::Single => Ok(()),
        Query::Base { input, places, .. } => add_source(alloc, input.get(), places, found),
        Query::Filter { input, subs, .. } => {
            add_sources(alloc, input.get(), found)?;
            add_sub_sources(alloc, subs.as_slice(), found)
        }
        Query::Project { input, subs, .. } => {
            add_sources(alloc, input.get(), found)?;
            add_sub_sources(alloc, subs.as_slice(), found)
        }
        Query::Join {
            left,
            right,
            subs,
            ..
        } => {
            add_sources(alloc, left.get(), found)?;
            add_sources(alloc, right.get(), found)?;
            add_sub_sources(alloc, subs.as_slice(), found)
        }
        Query::Union { left, right, .. } => {
            add_sources(alloc, left.get(), found)?;
            add_sources(alloc, right.get(), found)
        }
        Query::Intersect { left, right, .. } => {
            add_sources(alloc, left.get(), found)?;
            add_sources(alloc, right.get(), found)
        }
        Query::Except { left, right, .. } => {
            add_sources(alloc, left.get(), found)?;
            add_sources(alloc, right.get(), found)
        }
        Query::Distinct { input } => add_sources(alloc, input.get(), found),
        Query::Aggregate { input, .. } => add_sources(alloc, input.get(), found),
        Query::Limit { input, .. } => add_sources(alloc, input.get(), found),
        Query::Prov { .. } => Ok(()),
        Query::Apply { left, right, .. } => {
            add_sources(alloc, left.get(), found)?;
            add_sources(alloc, right.get(), found)
        }
    }
}

/// The sources of the sublinks' queries, in the order of their numbers.
#[cycle(add_sources)]
fn add_sub_sources(
    alloc: Global,
    subs: &[Sublink],
    found: &mut List<TableSource>,
) -> Result<(), NoMemory>
    ensures { OnOk result (found.new ≡ found.old ++ subs_table_sources subs.now) }
{
    for sub in subs {
        add_sources(alloc, &sub.query, found)?;
    }
    Ok(())
}

/// The source with that input, where it is a table.
fn add_source(
    alloc: Global,
    input: &Query,
    places: &List<usize>,
    found: &mut List<TableSource>,
) -> Result<(), NoMemory>
    ensures { OnOk result (found.new ≡ found.old ++ base_source input.now places.now) }
{
    match input {
        Query::Table { id, kinds } => {
            let kinds = kinds.copy(alloc)?;
            let places = places.copy(alloc)?;
            found.push(TableSource {
                id: *id,
                kinds,
                places,
            })
        }
        Query::Single => Ok(()),
        Query::Base { .. } => Ok(()),
        Query::Filter { .. } => Ok(()),
        Query::Project { .. } => Ok(()),
        Query::Join { .. } => Ok(()),
        Query::Union { .. } => Ok(()),
        Query::Intersect { .. } => Ok(()),
        Query::Except { .. } => Ok(()),
        Query::Distinct { .. } => Ok(()),
        Query::Aggregate { .. } => Ok(()),
        Query::Limit { .. } => Ok(()),
        Query::Prov { .. } => Ok(()),
        Query::Apply { .. } => Ok(()),
    }
}

/// The sources beside one another.
fn crossed(alloc: Global, sources: &[TableSource]) -> Result<Query, NoMemory>
    ensures { IfOk result (λ p. p ≡ crossed sources.now Single) }
{
    let mut whole = Query::Single;
    let mut at = sources.len();
    while at > 0 {
        at -= 1;
        whole = beside(alloc, &sources[at], whole)?;
    }
    Ok(whole)
}

fn beside(alloc: Global, source: &TableSource, rest: Query) -> Result<Query, NoMemory>
    ensures { IfOk result (λ p. p ≡ JoinOf Inner (source_query source.now) rest always [] end_of-Sublink) }
{
    let Ok(left) = source_query(alloc, source) else {
        drop(rest);
        return Err(NoMemory);
    };
    join_on(alloc, JoinKind::Inner, left, rest, always())
}

/// The rows of the table at the source's places, and one row of NULLs.
fn source_query(alloc: Global, source: &TableSource) -> Result<Query, NoMemory>
    ensures { IfOk result (λ p. p ≡ source_query source.now) }
{
    let (rows, blank) = both(source_rows(alloc, source), blank_row(alloc, source))?;
    Query::union(alloc, true, rows, blank)
}

fn source_rows(alloc: Global, source: &TableSource) -> Result<Query, NoMemory>
    ensures { IfOk result (λ p. p ≡
        ProjectOf (Table source.now.id source.now.kinds)
        (column_items source.now.kinds source.now.places) [] end_of-Sublink) }
{
    let items = column_items(alloc, source.kinds.as_slice(), source.places.as_slice())?;
    let kinds = source.kinds.copy(alloc)?;
    projection(
        alloc,
        Query::Table {
            id: source.id,
            kinds,
        },
        items,
    )
}

fn blank_row(alloc: Global, source: &TableSource) -> Result<Query, NoMemory>
    ensures { IfOk result (λ p. p ≡ null_row_of (kinds_in source.now.kinds source.now.places)) }
{
    let kinds = kinds_at(alloc, source.kinds.as_slice(), source.places.as_slice())?;
    null_row(alloc, kinds.as_slice())
}
