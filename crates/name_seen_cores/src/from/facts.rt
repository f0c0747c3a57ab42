ghost use Rattle.std.specs.Prelude.{◌≡◌, IfOk, OnOk};
ghost use Rattle.name_meaning.specs.laws.Facts.{no_facts, both_facts, source_facts};
ghost use Rattle.name_seen_cores.specs.from.Added.{facts_in};

use bag_algebra::Place;
use perm_values::{List, NoMemory};
use std::alloc::Global;

/// What the provenance of a query that isn't made yet rests on: the places of its witness lists.
#[derive(Drop)]
pub struct Facts {
    pub places: List<Place>,
}

impl Facts {
    /// Those of what has no source, and of what gives its provenance as columns. It takes no memory.
    pub fn none(alloc: Global) -> Facts
        ensures { facts_in result ≡ no_facts }
    {
        Facts {
            places: List::new(alloc),
        }
    }

    /// Those of a source of this place.
    pub fn of_source(alloc: Global, place: Place) -> Result<Facts, NoMemory>
        ensures { IfOk result (λ facts. facts_in facts ≡ source_facts place) }
    {
        let mut places = List::new(alloc);
        places.push(place)?;
        Ok(Facts { places })
    }

    /// Adds those of another part behind these.
    pub fn add(&mut self, more: Facts) -> Result<(), NoMemory>
        ensures { OnOk result (facts_in self.new ≡ both_facts (facts_in self.old) (facts_in more)) }
    {
        let Facts { places } = more;
        self.places.append(places)
    }
}
