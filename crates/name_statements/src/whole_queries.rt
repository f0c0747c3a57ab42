//! Whole queries, within the limits, of what was seen, found and made of them.
ghost use Rattle.std.specs.Prelude.{◌≡◌, [], IfOk, IsOkAnd, Ok, map};
ghost use Rattle.name_seen_parts.specs.Columns.{columns_of};
ghost use Rattle.name_meaning.specs.nodes.Makes.{MakesQuery};
ghost use Rattle.name_seen_parts.specs.Standing.{around_of};
ghost use Rattle.name_meaning.specs.Froms.{names_of, settled_columns};
ghost use Rattle.name_meaning.specs.Meanings.{QueryMeant, query_means_at};
ghost use Rattle.name_meaning.specs.Queries.{key_of};
ghost use Rattle.name_meaning.specs.Statements.{stored_columns};
ghost use Rattle.name_meaning.specs.Trees.{query_of};
ghost use Rattle.perm_catalog.specs.Sound.{IsSound};
ghost use Rattle.name_seen_cores.specs.from.Queried.{QueryWhole};
ghost use Rattle.name_inside.specs.heights.High.{QueryHigh};
ghost use Rattle.name_statements.specs.Resolves.{InsideSeen, IsInside, WholeSeen, WithinSeen};

use crate::limits::{is_too_high, size_break, within};
use crate::queries::{Whole, gathered_in, names_in, places_of};
use bag_algebra::{Answer, Query};
use name_inside::{Gathered, first_wide, query_height};
use name_made_parts::column_names;
use name_meaning::{Break, Rule};
use name_seen_cores::QueryShown;
use name_seen_parts::{Around, Refusal, ShownColumn, settled_columns};
use perm_catalog::Column;
use perm_values::{Chars, Key, List, NoMemory};
use sql_tree::QueryTree;
use std::alloc::Global;

/// What stands inside a query that breaks nothing, or the break of the first in it that is too wide, or else that the query is
/// too high. It isn't said of each that is: what the tree alone doesn't tell shows when the query is made.
pub fn gathered_within(query: &QueryTree, around: &Around) -> Result<Gathered, Refusal>
    requires sound { IsSound around.now.catalog.now }
    requires whole { (query_means_at (query_of around.now.catalog.now query.now)
        (around_of around.now)).breaks ≡ [] }
    ensures { InsideSeen query.now.at
        (query_means_at (query_of around.now.catalog.now query.now) (around_of around.now)) result }
{
    match narrow_within(query, around) {
        Ok(gathered) => low_enough(query.at, query_height(query), gathered),
        Err(refusal) => Err(refusal),
    }
}

/// What stands inside a query that breaks nothing, or the break of the first in it that is too wide.
#[tactic(auto, using(crate::proofs::Wholes::wide_first))]
fn narrow_within(query: &QueryTree, around: &Around) -> Result<Gathered, Refusal>
    requires sound { IsSound around.now.catalog.now }
    requires whole { (query_means_at (query_of around.now.catalog.now query.now)
        (around_of around.now)).breaks ≡ [] }
    ensures { InsideSeen query.now.at
        (query_means_at (query_of around.now.catalog.now query.now) (around_of around.now)) result }
{
    let gathered = gathered_in(query, around)?;
    let width = first_wide(gathered.queries.as_slice());
    within(gathered, width)
}

/// The same of a query that is made so high at least, or that it is too high.
fn low_enough(at: usize, height: u64, gathered: Gathered) -> Result<Gathered, Refusal>
    ensures { (m : QueryMeant) → m.breaks ≡ [] → QueryHigh height m → IsInside m gathered
        → InsideSeen at m result }
{
    if is_too_high(height) {
        drop(gathered);
        return Err(Refusal::Break(Break {
            rule: Rule::TooLarge,
            at,
        }));
    }
    Ok(gathered)
}

/// A query that was seen to break nothing, whole, of what stands inside it and of what was made; or the first limit that it
/// passes.
pub fn whole_with(
    query: &QueryTree,
    around: &Around,
    shown: QueryShown,
    keys: Result<List<Key>, NoMemory>,
    made: Result<Query, NoMemory>,
    gathered: Gathered,
) -> Result<Whole, Refusal>
    requires seen { QueryWhole
        (query_means_at (query_of around.now.catalog.now query.now) (around_of around.now)) shown }
    requires inside { IsInside
        (query_means_at (query_of around.now.catalog.now query.now) (around_of around.now)) gathered }
    ensures { IfOk keys (λ keys. keys ≡ map (key_of (columns_of shown.columns)) query.now.order)
        → IfOk made (MakesQuery
        (query_means_at (query_of around.now.catalog.now query.now) (around_of around.now)) [])
        → WholeSeen query.now.at
        (query_means_at (query_of around.now.catalog.now query.now) (around_of around.now)) result }
{
    match made_within(query.at, made, gathered) {
        Ok((made, gathered)) => Ok(with_shown(around.alloc, made, shown, keys, gathered)?),
        Err(refusal) => {
            drop(shown);
            drop(keys);
            Err(refusal)
        }
    }
}

/// A query that breaks nothing, as it is made, with what stands inside it, or the limit that it passes.
fn made_within(
    at: usize,
    made: Result<Query, NoMemory>,
    gathered: Gathered,
) -> Result<(Query, Gathered), Refusal>
    ensures { (m : QueryMeant) → m.breaks ≡ [] → IsInside m gathered
        → IfOk made (MakesQuery m []) → WithinSeen at m result }
{
    let Ok(made) = made else {
        drop(gathered);
        return Err(Refusal::NoMemory);
    };
    let size = size_break(at, &made);
    within((made, gathered), size)
}

/// The made query with what else was found of it.
fn with_shown(
    alloc: Global,
    made: Query,
    shown: QueryShown,
    keys: Result<List<Key>, NoMemory>,
    gathered: Gathered,
) -> Result<Whole, NoMemory>
    ensures { IfOk result (λ whole. IsOkAnd keys (λ keys. whole ≡ record {
      answer = record {
        query = made;
        names = names_of (settled_columns (columns_of shown.columns));
        keys = keys;
      };
      places = shown.places;
      columns = stored_columns (settled_columns (columns_of shown.columns));
      names = gathered.names;
    })) }
{
    let Ok((columns, names, keys)) = shown_parts(alloc, shown.columns.as_slice(), keys) else {
        drop(made);
        drop(shown);
        drop(gathered);
        return Err(NoMemory);
    };
    Ok(Whole {
        answer: Answer {
            query: made,
            names,
            keys,
        },
        places: places_of(shown),
        columns,
        names: names_in(gathered),
    })
}

/// The columns as a table has them and their names, with the keys.
fn shown_parts(
    alloc: Global,
    columns: &[ShownColumn],
    keys: Result<List<Key>, NoMemory>,
) -> Result<(List<Column>, List<Chars>, List<Key>), NoMemory>
    ensures columns { IfOk result (λ parts.
        parts.0 ≡ stored_columns (settled_columns (columns_of columns.now))) }
    ensures names { IfOk result (λ parts. parts.1 ≡ names_of (settled_columns (columns_of columns.now))) }
    ensures keys { IfOk result (λ parts. keys ≡ Ok parts.2) }
{
    let stored = settled_columns(alloc, columns)?;
    let names = column_names(alloc, columns)?;
    let keys = keys?;
    Ok((stored, names, keys))
}
