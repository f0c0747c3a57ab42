//! The facts of a query that is made.
ghost use Rattle.std.specs.Prelude.{◌≡◌, IfOk};
ghost use Rattle.name_meaning.specs.laws.Facts.{facts_of};
ghost use Rattle.name_seen_cores.specs.from.Added.{facts_in};

use crate::from::facts::Facts;
use bag_algebra::Query;
use contribution::{PlaceList, shape};
use perm_values::NoMemory;
use std::alloc::Global;

/// What the provenance of a query rests on. It fails only for want of memory.
pub fn facts_of(alloc: Global, query: &Query) -> Result<Facts, NoMemory>
    ensures { IfOk result (λ facts. facts_in facts ≡ facts_of query.now) }
{
    let PlaceList { places } = shape(alloc, query)?;
    Ok(Facts { places })
}
