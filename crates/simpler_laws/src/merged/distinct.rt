//! DISTINCT over what has no row twice.
ghost use Rattle.std.specs.Prelude.{◌≡◌, IfOk};
ghost use Rattle.bag_algebra.specs.Rewriting.{Stands};
ghost use Rattle.bag_algebra.specs.declared.query.Query.TheVariants.{Distinct};
ghost use Rattle.bag_algebra.specs.declared.query.Query.{Query};
ghost use Rattle.simpler_laws.specs.merged.Once.{gives_once, IsMadeOnce};

use bag_algebra::Query;
use perm_values::NoMemory;
use std::alloc::Global;

/// Whether the topmost node has no row twice, whatever stands below it. It takes no memory.
pub fn gives_once(query: &Query) -> bool
    ensures { result ≡ gives_once query.now }
{
    match query {
        Query::Table { .. } => false,
        Query::Single => true,
        Query::Base { .. } => false,
        Query::Filter { .. } => false,
        Query::Project { .. } => false,
        Query::Join { .. } => false,
        Query::Apply { .. } => false,
        Query::Union { all, .. } => !*all,
        Query::Intersect { all, .. } => !*all,
        Query::Except { all, .. } => !*all,
        Query::Distinct { .. } => true,
        Query::Aggregate { .. } => true,
        Query::Limit { .. } => false,
        Query::Prov { .. } => false,
    }
}

/// What stands for a DISTINCT over what stands for its input: that itself, where it has no row twice. It fails where that
/// failed, and for want of memory.
pub fn distinct_once(alloc: Global, input: Result<Query, NoMemory>) -> Result<Query, NoMemory>
    ensures stands { (q : Query) → IfOk input (λ b. Stands q b) → IfOk result (λ p. Stands (Distinct q) p) }
    ensures made { IfOk result (λ p. IsMadeOnce input p) }
{
    let input = input?;
    if gives_once(&input) {
        return Ok(input);
    }
    Query::distinct(alloc, input)
}
