//! Whether PROVENANCE stands in a query, and whether its sources are over tables.
#![tactic(auto, using(crate::proofs::Smaller::smaller))]

ghost use Rattle.std.specs.Prelude.{◌≡◌};
ghost use Rattle.std.specs.List.{list_all};
ghost use Rattle.bag_algebra.specs.built.Scopes.{all_plain, all_over_tables};
ghost use Rattle.bag_algebra.specs.Inputs.{given};
ghost use Rattle.bag_algebra.specs.Rewriting.{is_plain};
ghost use Rattle.bag_algebra.specs.Scoped.{is_table, over_tables};

use crate::children::Inputs;
use crate::query::{Query, Sublink};

/// Whether no PROVENANCE stands anywhere in the query, sublinks included. It takes no memory.
#[cycle(is_plain)]
pub fn is_plain(query: &Query) -> bool
    ensures { result ≡ is_plain query.now }
{
    match query {
        Query::Prov { .. } => false,
        _ => inputs_plain(query.inputs()) && all_plain(query.sublinks()),
    }
}

#[cycle(is_plain)]
fn inputs_plain(inputs: Inputs<'_>) -> bool
    ensures { result ≡ list_all is_plain (given inputs.entry) }
{
    match inputs {
        Inputs::Zero => true,
        Inputs::One(input) => is_plain(input),
        Inputs::Two(left, right) => is_plain(left) && is_plain(right),
    }
}

/// Whether the queries of all sublinks are plain.
#[cycle(is_plain)]
fn all_plain(subs: &[Sublink]) -> bool
    ensures { result ≡ all_plain subs.now }
{
    for sub in subs {
        if !is_plain(&sub.query) {
            return false;
        }
    }
    true
}

/// Whether the input of each source of the query is a table. It takes no memory.
#[cycle(over_tables)]
pub fn over_tables(query: &Query) -> bool
    ensures { result ≡ over_tables query.now }
{
    match query {
        Query::Base { input, .. } => is_table(input.get()),
        Query::Prov { .. } => true,
        _ => inputs_over_tables(query.inputs()) && all_over_tables(query.sublinks()),
    }
}

#[cycle(over_tables)]
fn inputs_over_tables(inputs: Inputs<'_>) -> bool
    ensures { result ≡ list_all over_tables (given inputs.entry) }
{
    match inputs {
        Inputs::Zero => true,
        Inputs::One(input) => over_tables(input),
        Inputs::Two(left, right) => over_tables(left) && over_tables(right),
    }
}

/// Whether the input of each source of the sublinks' queries is a table.
#[cycle(over_tables)]
fn all_over_tables(subs: &[Sublink]) -> bool
    ensures { result ≡ all_over_tables subs.now }
{
    for sub in subs {
        if !over_tables(&sub.query) {
            return false;
        }
    }
    true
}

/// Whether the query is a table. It takes no memory.
pub fn is_table(query: &Query) -> bool
    ensures { result ≡ is_table query.now }
{
    matches!(query, Query::Table { .. })
}
