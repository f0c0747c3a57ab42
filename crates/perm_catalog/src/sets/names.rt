ghost use Rattle.std.specs.Prelude.{◌≡◌, ◌∷◌, ◌++◌, [], true, not, IfOk};
ghost use Rattle.perm_catalog.specs.sets.Named.{is_named};

use indexmap::IndexSet;
use perm_values::{Chars, Copyable, NoMemory};
use std::alloc::Global;

/// Names in the order in which they came, each once.
#[derive(Drop)]
pub struct Names {
    pub known: IndexSet<Chars>,
}

impl Names {
    /// No names yet. It takes no memory.
    pub fn none(alloc: Global) -> Names
        ensures { result.known.keys ≡ [] }
    {
        Names {
            known: IndexSet::new(alloc),
        }
    }

    /// Whether the name is one of them.
    pub fn has(&self, name: &Chars) -> bool
        ensures { result ≡ is_named self.now.known.keys name.now }
    {
        self.known.contains(name)
    }

    /// Puts a copy of the name behind the others, unless it is one of them, and says whether it is new. It fails only for
    /// want of memory.
    pub fn add(&mut self, alloc: Global, name: &Chars) -> Result<bool, NoMemory>
        ensures tells { IfOk result (λ is_new. is_new ≡ not (is_named self.old.known.keys name.now)) }
        ensures adds { IfOk result (λ is_new. is_new ≡ true
            → self.new.known.keys ≡ self.old.known.keys ++ name.now ∷ []) }
    {
        let copied = name.copy(alloc)?;
        let is_new = self.known.insert(copied)?;
        Ok(is_new)
    }
}
