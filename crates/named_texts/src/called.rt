//! Names that are told apart.
use perm_values::{Bytes, List, NoMemory};
use std::alloc::Global;
use std::collections::BTreeMap;

/// Names that were given, no two of them alike: SQLite takes `"A"` and `"a"` for one name.
#[derive(Drop)]
pub(crate) struct Called {
    alloc: Global,
    /// By each name that was given, in small letters, the number that is tried next where it is asked for.
    next: BTreeMap<Vec<u8>, usize>,
}

impl Called {
    pub(crate) fn new(alloc: Global) -> Called {
        Called {
            alloc,
            next: BTreeMap::new(alloc),
        }
    }

    /// The name, with the next number behind it where that name was given already.
    pub(crate) fn call(&mut self, asked: &[u8]) -> Result<Bytes, NoMemory> {
        let number = self.free_number(asked)?;
        let name = numbered(self.alloc, asked, number)?;
        self.set_next(name.as_slice(), 1)?;
        self.set_next(asked, number.saturating_add(1))?;
        Ok(name)
    }

    /// The first number with which the name wasn't given; 0 is without a number.
    fn free_number(&self, asked: &[u8]) -> Result<usize, NoMemory> {
        let mut number = self.next_number(asked)?;
        // Of one name more than were given, one is free.
        for _given in 0..self.next.len() {
            let name = numbered(self.alloc, asked, number)?;
            if self.next_number(name.as_slice())? == 0 {
                return Ok(number);
            }
            number = number.saturating_add(1);
        }
        Ok(number)
    }

    /// The number that is tried next for a name: 0 where it wasn't given.
    fn next_number(&self, name: &[u8]) -> Result<usize, NoMemory> {
        let small = name.to_ascii_lowercase(self.alloc)?;
        Ok(self.next.get(small.as_slice()).copied().unwrap_or(0))
    }

    fn set_next(&mut self, name: &[u8], number: usize) -> Result<(), NoMemory> {
        let small = name.to_ascii_lowercase(self.alloc)?;
        self.next.insert(small, number)?;
        Ok(())
    }
}

/// A name, with a number behind it unless that is 0.
fn numbered(alloc: Global, name: &[u8], number: usize) -> Result<Bytes, NoMemory> {
    let mut whole = Bytes::new(alloc);
    whole.add(name)?;
    if number > 0 {
        whole.add(b"_")?;
        whole.add(number.to_string(alloc)?.as_bytes())?;
    }
    Ok(whole)
}

/// The names in their order, each with a number behind it where it is given already.
pub(crate) fn told_apart(alloc: Global, names: &[Bytes]) -> Result<List<Bytes>, NoMemory> {
    let mut called = Called::new(alloc);
    let mut apart = List::new(alloc);
    for name in names {
        apart.push(called.call(name.as_slice())?)?;
    }
    Ok(apart)
}
