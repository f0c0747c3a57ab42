//! The places that a query reads of its nearest outer row.
ghost use Rattle.std.specs.Prelude.{◌≡◌, IfOk};
ghost use Rattle.query_facts.specs.reached.reads.Columns.{AreNearest, columns_of, is_among};

use crate::reached::reads::queries::{OuterColumn, columns_of};
use bag_algebra::Query;
use perm_values::{List, NoMemory};
use std::alloc::Global;

/// The places of the columns that the query reads of its nearest outer row. It fails only for want of memory.
pub fn nearest_places(alloc: Global, query: &Query) -> Result<List<usize>, NoMemory>
    ensures { IfOk result (λ places. AreNearest (columns_of query.now) places) }
{
    let columns = columns_of(alloc, query)?;
    places_in(alloc, columns.as_slice())
}

fn places_in(alloc: Global, columns: &[OuterColumn]) -> Result<List<usize>, NoMemory>
    ensures { IfOk result (λ places. AreNearest columns.now places) }
{
    let mut places = List::new(alloc);
    for column in columns {
        if column.level == 0 && !is_among(places.as_slice(), column.place) {
            places.push(column.place)?;
        }
    }
    Ok(places)
}

fn is_among(places: &[usize], place: usize) -> bool
    ensures { result ≡ is_among places.now place }
{
    for other in places {
        if *other == place {
            return true;
        }
    }
    false
}
