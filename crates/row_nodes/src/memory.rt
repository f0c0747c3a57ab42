//! What was found on rows, remembered by the values that these have at some places.
ghost use Rattle.std.specs.Prelude.{◌≡◌, [], IfOk, OnOk, OnErr};
ghost use Rattle.std.specs.Option.{option_copied};
ghost use Rattle.perm_values.specs.Rows.{picked};
ghost use Rattle.row_nodes.specs.memory.Memory.{Forgets, Learns, found, remembered};

use indexmap::IndexMap;
use perm_values::{Copyable, List, NoMemory, Row};
use row_values::values_at;
use std::alloc::Global;
use std::marker::Model;

/// What was found on rows, by the values that these have at some places, and the values of the row at hand.
#[derive(Drop)]
pub struct Memory<A> {
    places: List<usize>,
    key: Row,
    table: IndexMap<Row, A>,
    weight: usize,
    room: usize,
}

impl<A> Model for Memory<A> {
    ghost use Rattle.row_nodes.specs.memory.Memory.{Remembered, remembered};

    ghost Value = { Remembered A };

    ghost view = { λ m. remembered m.places m.key m.table.entries };
}

impl<A: Drop> Memory<A> {
    /// Nothing yet. What is found later may weigh so much in all; the last that is found is kept however much it weighs. It
    /// takes no memory.
    pub fn new(alloc: Global, places: List<usize>, room: usize) -> Memory<A>
        ensures { result ≡ remembered places [] [] }
    {
        Memory {
            places,
            key: Row::new(alloc),
            table: IndexMap::new(alloc),
            weight: 0,
            room,
        }
    }

    /// Goes on to a row. It fails only for want of memory, and then changes nothing.
    pub fn go_on(&mut self, alloc: Global, row: &Row) -> Result<(), NoMemory>
        ensures ok { OnOk result (self.new
            ≡ remembered self.old.places (picked self.old.places row.now) self.old.entries) }
        ensures err { OnErr result (self.new ≡ self.old) }
    {
        self.key = values_at(alloc, row, self.places.as_slice())?;
        Ok(())
    }

    /// What was found on a row with the values of the row at hand.
    pub fn found(&self) -> Option<&A>
        ensures { option_copied result ≡ found self.now }
    {
        self.table.get(&self.key)
    }

    /// Remembers what was found on the row at hand. Where all that is remembered would weigh more than there is room for,
    /// the rest is forgotten. It fails only for want of memory.
    pub fn keep(&mut self, alloc: Global, weight: usize, item: A) -> Result<(), NoMemory>
        ensures ok { OnOk result (Learns self.old self.new item) }
        ensures err { OnErr result (Forgets self.old self.new) }
    {
        self.make_room(weight);
        let key = self.key.copy(alloc)?;
        self.table.insert(key, item)?;
        Ok(())
    }

    /// Forgets all where there is no room for so much more.
    fn make_room(&mut self, weight: usize)
        ensures { Forgets self.old self.new }
    {
        self.weight = self.weight.saturating_add(weight);
        if self.weight > self.room {
            self.table.clear();
            self.weight = weight;
        }
    }
}
