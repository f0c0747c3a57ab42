ghost use Rattle.std.specs.Prelude.{◌≡◌};
ghost use Rattle.query_facts.specs.monotone.Monotone as queries;

use crate::monotone::is_monotone;
use bag_algebra::{Inputs, JoinKind, Query};

/// Whether the query is monotone (`is_monotone`), found without going down its first inputs by recursion. It
/// takes no memory.
#[cycle(along)]
#[tactic(auto, using(crate::proofs::spines::Nodes::along, bag_algebra::proofs::Smaller::smaller))]
pub fn is_monotone_along(query: &Query) -> bool
    ensures { result ≡ queries.is_monotone query.now }
{
    let mut node = query;
    'down: while goes_on(node) {
        match node.inputs() {
            Inputs::Zero => return true,
            Inputs::One(input) => node = input,
            Inputs::Two(left, right) => {
                if is_monotone_along(right) {
                    node = left;
                } else {
                    return false;
                }
            }
        }
    }
    is_monotone(node)
}

/// Whether a query is monotone where the inputs of its topmost node are; a source isn't looked into.
fn goes_on(query: &Query) -> bool
    ensures { result ≡ queries.own_monotone query.now }
{
    match query {
        Query::Table { .. } => false,
        Query::Single => true,
        Query::Base { .. } => false,
        Query::Filter { subs, .. } => subs.is_empty(),
        Query::Project { subs, .. } => subs.is_empty(),
        Query::Join { kind, subs, .. } => is_inner(*kind) && subs.is_empty(),
        Query::Apply { .. } => false,
        Query::Union { .. } => true,
        Query::Intersect { .. } => false,
        Query::Except { .. } => false,
        Query::Distinct { .. } => true,
        Query::Aggregate { .. } => false,
        Query::Limit { .. } => false,
        Query::Prov { .. } => false,
    }
}

fn is_inner(kind: JoinKind) -> bool
    ensures { result ≡ queries.is_inner kind }
{
    matches!(kind, JoinKind::Inner)
}
