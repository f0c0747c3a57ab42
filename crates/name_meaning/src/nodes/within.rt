ghost use Rattle.std.specs.Prelude.{◌≡◌};
ghost use Rattle.name_meaning.specs.nodes.Makes.{nothing_found};

use bag_algebra::{Aggr, Sublink};
use perm_values::List;
use std::alloc::Global;

/// The sublinks and the aggregates of a clause as far as they are made; the next is numbered by how many stand before.
#[derive(Drop)]
pub struct Within {
    pub subs: List<Sublink>,
    pub aggregates: List<Aggr>,
}

impl Within {
    /// Nothing so far. It takes no memory.
    pub fn nothing(alloc: Global) -> Within
        ensures { result ≡ nothing_found }
    {
        Within {
            subs: List::new(alloc),
            aggregates: List::new(alloc),
        }
    }
}
