//! Which queries are monotone: where a table loses rows, the query gains none.
ghost use Rattle.std.specs.Prelude.{◌≡◌};
ghost use Rattle.std.specs.List.{list_all};
ghost use Rattle.bag_algebra.specs.Inputs.{given};
ghost use Rattle.query_facts.specs.monotone.Monotone.{are_all_places, is_inner, is_monotone, is_relation, is_whole_table, own_monotone};

use bag_algebra::{Inputs, JoinKind, Label, Query};

/// Whether the query is built of `Single`, sources over whole tables, Filter and Project without sublinks, inner joins without
/// sublinks, UNION and DISTINCT alone. A source is over a whole table where its input is a table, its places are those of
/// all the table's columns in order, and its label is a relation. It takes no memory.
#[cycle(is_monotone)]
pub fn is_monotone(query: &Query) -> bool
    ensures { result ≡ is_monotone query.now }
{
    match query {
        Query::Base {
            input,
            places,
            label,
        } => is_relation(label) && is_whole_table(input.get(), places.as_slice()),
        _ => own_monotone(query) && inputs_monotone(query.inputs()),
    }
}

#[cycle(is_monotone)]
fn inputs_monotone(inputs: Inputs<'_>) -> bool
    ensures { result ≡ list_all is_monotone (given inputs.entry) }
{
    match inputs {
        Inputs::Zero => true,
        Inputs::One(input) => is_monotone(input),
        Inputs::Two(left, right) => is_monotone(left) && is_monotone(right),
    }
}

/// Whether the topmost node, which is no source, is one of a monotone query and has no sublinks.
fn own_monotone(query: &Query) -> bool
    ensures { result ≡ own_monotone query.now }
{
    match query {
        Query::Table { .. } => false,
        Query::Single => true,
        Query::Base { .. } => false,
        Query::Filter { subs, .. } => subs.is_empty(),
        Query::Project { subs, .. } => subs.is_empty(),
        Query::Join { kind, subs, .. } => is_inner(*kind) && subs.is_empty(),
        Query::Apply { .. } => false,
        Query::Union { .. } => true,
        Query::Intersect { .. } => false,
        Query::Except { .. } => false,
        Query::Distinct { .. } => true,
        Query::Aggregate { .. } => false,
        Query::Limit { .. } => false,
        Query::Prov { .. } => false,
    }
}

fn is_inner(kind: JoinKind) -> bool
    ensures { result ≡ is_inner kind }
{
    matches!(kind, JoinKind::Inner)
}

fn is_relation(label: &Label) -> bool
    ensures { result ≡ is_relation label.now }
{
    match label {
        Label::Relation { .. } => true,
        Label::External { .. } => false,
    }
}

/// Whether the input of a source is a table, and the source's places are those of all its columns in order.
fn is_whole_table(input: &Query, places: &[usize]) -> bool
    ensures { result ≡ is_whole_table input.now places.now }
{
    match input {
        Query::Table { kinds, .. } => are_all_places(kinds.len(), places),
        _ => false,
    }
}

fn are_all_places(width: usize, places: &[usize]) -> bool
    ensures { result ≡ are_all_places width places.now }
{
    for at in 0..places.len() {
        if places[at] != at {
            return false;
        }
    }
    places.len() == width
}
