//! Whether each row of a query stems from one part of a table or from the other.
#![tactic(auto, using(bag_algebra::proofs::Smaller::smaller))]

ghost use Rattle.std.specs.Prelude.{◌≡◌, ◌||◌};
ghost use Rattle.std.specs.List.{list_all};
ghost use Rattle.bag_algebra.specs.Inputs.{given};
ghost use Rattle.delete_impact.specs.reduced.Splitting.{lacks, own_splits, splits};

use crate::reduced::reads::first_kinds;
use bag_algebra::{Inputs, Query};

/// Whether no join of the query, which is monotone, reads the table of the identity on both sides: then each row of the query
/// is one over any part of that table or over its rest. It takes no memory.
#[cycle(splits)]
pub fn splits(query: &Query, id: u64) -> bool
    ensures { result ≡ splits id query.now }
{
    own_splits(query, id) && inputs_split(query.inputs(), id)
}

#[cycle(splits)]
fn inputs_split(inputs: Inputs<'_>, id: u64) -> bool
    ensures { result ≡ list_all (splits id) (given inputs.entry) }
{
    match inputs {
        Inputs::Zero => true,
        Inputs::One(input) => splits(input, id),
        Inputs::Two(left, right) => splits(left, id) && splits(right, id),
    }
}

/// Whether the topmost node is no join that reads the table on both sides.
fn own_splits(query: &Query, id: u64) -> bool
    ensures { result ≡ own_splits id query.now }
{
    match query {
        Query::Table { .. } => true,
        Query::Single => true,
        Query::Base { .. } => true,
        Query::Filter { .. } => true,
        Query::Project { .. } => true,
        Query::Join { left, right, .. } => some_lacks(left.get(), right.get(), id),
        Query::Apply { .. } => false,
        Query::Union { .. } => true,
        Query::Intersect { .. } => false,
        Query::Except { .. } => false,
        Query::Distinct { .. } => true,
        Query::Aggregate { .. } => false,
        Query::Limit { .. } => false,
        Query::Prov { .. } => false,
    }
}

/// Whether one of the two doesn't read the table.
fn some_lacks(left: &Query, right: &Query, id: u64) -> bool
    ensures { result ≡ (lacks id left.now || lacks id right.now) }
{
    lacks(left, id) || lacks(right, id)
}

/// Whether the query doesn't read the table, sublinks aside.
fn lacks(query: &Query, id: u64) -> bool
    ensures { result ≡ lacks id query.now }
{
    first_kinds(query, id).is_none()
}
