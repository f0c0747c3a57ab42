//! Names in a row.
ghost use Rattle.std.specs.Prelude.{◌≡◌, ◌∷◌, ◌++◌, [], nat_eq, length, position, OnOk};
ghost use Rattle.std.specs.Cmp.Lexicographic.{pointwise};

use indexmap::IndexSet;
use perm_values::{Chars, Copyable, List, NoMemory};
use std::alloc::Global;
use std::marker::Model;

/// Names in order, which contracts see as their list. Where each stands in it once, a name's place is found by hashing.
#[derive(Drop)]
pub struct NameList {
    names: List<Chars>,
    known: IndexSet<Chars>,
    /// Whether `known` has the names, each at its place.
    each_once: bool,
}

impl Model for NameList {
    ghost use Rattle.std.specs.Prelude.{◌≡◌, ℕ, List, true};

    ghost Value = { List (List ℕ) };

    ghost view = { λ l. l.names };

    ghost invariant = { λ l. l.each_once ≡ true → l.known.keys ≡ l.names };
}

impl NameList {
    /// No names. It takes no memory.
    pub fn none(alloc: Global) -> NameList
        ensures { result ≡ [] }
    {
        NameList {
            names: List::new(alloc),
            known: IndexSet::new(alloc),
            each_once: true,
        }
    }

    /// The number of names.
    pub fn len(&self) -> usize
        ensures { result ≡ length self.now }
    {
        self.names.len()
    }

    /// The names in order.
    pub fn as_slice(&self) -> &[Chars]
        ensures { result.now ≡ self.now }
    {
        self.names.as_slice()
    }

    /// The place of the first such name, from 0; `None` exactly where there is none.
    pub fn place(&self, name: &Chars) -> Option<usize>
        ensures { result ≡ position (pointwise nat_eq name.now) self.now }
    {
        if self.each_once {
            return self.known.get_index_of(name);
        }
        self.names.as_slice().iter().position(|known| name == known)
    }

    /// Adds a name at the end. It fails only for want of memory.
    pub fn push(&mut self, alloc: Global, name: Chars) -> Result<(), NoMemory>
        ensures { OnOk result (self.new ≡ self.old ++ name ∷ []) }
    {
        let each_once = self.each_once;
        self.each_once = false;
        let is_new = self.known.insert(name.copy(alloc)?)?;
        self.names.push(name)?;
        self.each_once = each_once && is_new;
        Ok(())
    }

    /// Adds the names of another list at the end. It fails only for want of memory.
    pub fn append(&mut self, alloc: Global, more: &NameList) -> Result<(), NoMemory>
        ensures { OnOk result (self.new ≡ self.old ++ more.now) }
    {
        for name in more.names.as_slice() {
            self.push(alloc, name.copy(alloc)?)?;
        }
        Ok(())
    }
}
