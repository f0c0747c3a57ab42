//! Which queries are written as one SELECT, as a FROM with a WHERE, and as a FROM that joins may follow.
ghost use Rattle.std.specs.Prelude.{◌≡◌, ◌&&◌};
ghost use Rattle.bag_algebra.specs.Kinds.{width_of};
ghost use Rattle.query_texts.specs.clauses.Chains.{is_chained};
ghost use Rattle.tree_texts.specs.expressions.Words.{is_any};
ghost use Rattle.query_texts.specs.built.Shapes.{is_block, is_chain, is_select};

use bag_algebra::{JoinKind, Query, width};

pub(crate) fn is_select(query: &Query) -> bool
    ensures { result ≡ is_select query.now }
{
    match query {
        Query::Table { .. } => true,
        Query::Single => true,
        Query::Base { .. } => false,
        Query::Filter { .. } => true,
        Query::Project { .. } => true,
        Query::Join { kind, .. } => is_chained(*kind),
        Query::Apply { .. } => true,
        Query::Union { .. } => false,
        Query::Intersect { .. } => false,
        Query::Except { .. } => false,
        Query::Distinct { .. } => false,
        Query::Aggregate { .. } => false,
        Query::Limit { .. } => false,
        Query::Prov { .. } => false,
    }
}

pub(crate) fn is_block(query: &Query) -> bool
    ensures { result ≡ is_block query.now }
{
    match query {
        Query::Table { .. } => false,
        Query::Single => false,
        Query::Base { .. } => false,
        Query::Filter { .. } => true,
        Query::Project { .. } => false,
        Query::Join { kind, .. } => is_chained(*kind),
        Query::Apply { .. } => true,
        Query::Union { .. } => false,
        Query::Intersect { .. } => false,
        Query::Except { .. } => false,
        Query::Distinct { .. } => false,
        Query::Aggregate { .. } => false,
        Query::Limit { .. } => false,
        Query::Prov { .. } => false,
    }
}

pub(crate) fn is_chain(query: &Query) -> bool
    ensures { result ≡ is_chain query.now }
{
    match query {
        Query::Table { .. } => false,
        Query::Single => false,
        Query::Base { .. } => false,
        Query::Filter { .. } => false,
        Query::Project { .. } => false,
        Query::Join { kind, right, .. } => is_followed(*kind, right.get()),
        Query::Apply { right, .. } => has_columns(right.get()),
        Query::Union { .. } => false,
        Query::Intersect { .. } => false,
        Query::Except { .. } => false,
        Query::Distinct { .. } => false,
        Query::Aggregate { .. } => false,
        Query::Limit { .. } => false,
        Query::Prov { .. } => false,
    }
}

/// Whether a join may stand in one FROM with others.
pub(crate) fn is_chained(kind: JoinKind) -> bool
    ensures { result ≡ is_chained kind }
{
    match kind {
        JoinKind::Inner => true,
        JoinKind::Left => true,
        JoinKind::Right => false,
        JoinKind::Full => false,
    }
}

fn is_followed(kind: JoinKind, right: &Query) -> bool
    ensures { result ≡ (is_chained kind && is_any (width_of right.now)) }
{
    is_chained(kind) && has_columns(right)
}

fn has_columns(query: &Query) -> bool
    ensures { result ≡ is_any (width_of query.now) }
{
    width(query) > 0
}
