//! What is traced of a sublink.
ghost use Rattle.std.specs.Prelude.{◌≡◌, ◌≤◌};
ghost use Rattle.bag_algebra.specs.Measures.{size_of};
ghost use Rattle.rewrite_move.specs.Traced.{below_groups, query_from, traced_of};

use bag_algebra::{Query, SubKind, Sublink};

/// Of which query of each sublink a rewriting is given.
#[derive(Clone, Copy)]
pub(crate) enum Origin {
    /// Of its own.
    Own,
    /// Of the one that is traced for it.
    Traced,
}

/// That query of a sublink. It takes no memory.
pub(crate) fn query_from(origin: Origin, sub: &Sublink) -> &Query
    ensures { result.now ≡ query_from origin sub.now }
{
    match origin {
        Origin::Own => &sub.query,
        Origin::Traced => traced(sub),
    }
}

/// The query of which a sublink's contributions are those of an EXISTS: its own without the projections without sublinks, the DISTINCTs and
/// the groups on top, where every row contributes; that of ANY and ALL is its own. It has no more operators, and takes no memory.
#[tactic(auto, using(crate::proofs::BelowSizes::below_is_no_larger))]
pub fn traced(sub: &Sublink) -> &Query
    ensures value { result.now ≡ traced_of sub.now }
    ensures size { size_of result.now ≤ size_of sub.now.query }
{
    match sub.kind {
        SubKind::Exists => below_groups(&sub.query),
        SubKind::Any(_) => &sub.query,
        SubKind::All(_) => &sub.query,
        SubKind::Scalar => below_groups(&sub.query),
    }
}

/// The query below the projections without sublinks, the DISTINCTs and the groups on its top.
#[cycle(below_groups)]
fn below_groups(query: &Query) -> &Query
    ensures { result.now ≡ below_groups query.now }
{
    match query {
        Query::Table { .. } => query,
        Query::Single => query,
        Query::Base { .. } => query,
        Query::Filter { .. } => query,
        Query::Project { input, subs, .. } => {
            if subs.is_empty() {
                return below_groups(input.get());
            }
            query
        }
        Query::Join { .. } => query,
        Query::Apply { .. } => query,
        Query::Union { .. } => query,
        Query::Intersect { .. } => query,
        Query::Except { .. } => query,
        Query::Distinct { input } => below_groups(input.get()),
        Query::Aggregate { input, .. } => below_groups(input.get()),
        Query::Limit { .. } => query,
        Query::Prov { .. } => query,
    }
}
