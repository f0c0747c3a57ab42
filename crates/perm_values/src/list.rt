ghost use Rattle.std.specs.Prelude.{◌≡◌, [], ◌∷◌, ◌++◌, ◌+◌, ◌<◌, ◌^◌, take, length, slice_get, Some, MatchOption, OnOk, OnErr, IfOk, IsTrue, ◌↔◌, count_by};
ghost use Rattle.std.specs.List.{range_with_len};
ghost use Rattle.std.specs.Option.{option_copied};
ghost use Rattle.perm_values.specs.Marked.{unmarked};

use crate::copyable::add_copies;
use crate::room::push_tightly;
use crate::{Copyable, NoMemory};
use std::alloc::Global;
use std::marker::Model;

/// A `Vec` that contracts see as the list of its items, so that a copy equals its source.
#[derive(Drop)]
pub struct List<T> {
    items: Vec<T>,
}

impl<T> Model for List<T> {
    ghost use Rattle.std.specs.Coded.{coded_list};
    ghost use Rattle.std.specs.Prelude.{List};

    ghost Value = { List T };

    ghost coded = { coded_list T.code };

    ghost view = { λ l. l.items.items };
}

impl<T> List<T> {
    /// The empty list. It takes no memory.
    pub fn new(alloc: Global) -> List<T>
        ensures { result ≡ [] }
    {
        List {
            items: Vec::new(alloc),
        }
    }

    /// The empty list, with room for as many items. It fails only for want of memory.
    pub fn with_room(alloc: Global, room: usize) -> Result<List<T>, NoMemory>
        ensures { IfOk result (λ list. list ≡ []) }
    {
        Ok(List {
            items: Vec::with_capacity(alloc, room)?,
        })
    }

    /// The items of a `Vec`. It takes no memory.
    pub fn from_vec(items: Vec<T>) -> List<T>
        ensures { result ≡ items.items }
    {
        List { items }
    }

    /// The items as a `Vec`. It takes no memory.
    pub fn into_vec(self) -> Vec<T>
        ensures { result.items ≡ self }
    {
        let List { items } = self;
        items
    }

    /// The number of items.
    pub fn len(&self) -> usize
        ensures value { result ≡ length self.now }
        ensures bound { result < 2 ^ 63 }
    {
        self.items.len()
    }

    /// Whether there is no item.
    pub fn is_empty(&self) -> bool
        ensures { IsTrue result ↔ (self.now ≡ []) }
    {
        self.items.is_empty()
    }

    /// The item at a place, counted from 0.
    pub fn get(&self, at: usize) -> &T
        requires { at < length self.now }
        ensures { slice_get self.now at ≡ Some result.now }
    {
        &self.items[at]
    }

    /// The items in order.
    pub fn as_slice(&self) -> &[T]
        ensures { result.now ≡ self.now }
    {
        self.items.as_slice()
    }

    /// Gives back the room that no item fills, where the allocator takes it. It takes no memory.
    pub fn tighten(&mut self)
        ensures { self.new ≡ self.old }
    {
        self.items.shrink_to_fit();
    }

    /// Takes the last item off; `None` exactly where the list is empty. It takes no memory.
    pub fn pop(&mut self) -> Option<T>
        ensures { MatchOption result ((self.old ≡ []) × (self.new ≡ []))
            (λ last. self.old ≡ self.new ++ last ∷ []) }
    {
        self.items.pop()
    }
}

impl<T: Drop> List<T> {
    /// Adds an item at the end. It fails only for want of memory, and then the list is as before.
    pub fn push(&mut self, item: T) -> Result<(), NoMemory>
        ensures ok { OnOk result (self.new ≡ self.old ++ item ∷ []) }
        ensures err { OnErr result (self.new ≡ self.old) }
    {
        push_tightly(&mut self.items, item)
    }

    /// Moves the items of `more` to the end. It fails only for want of memory, and then the list is as before.
    pub fn append(&mut self, more: List<T>) -> Result<(), NoMemory>
        ensures ok { OnOk result (self.new ≡ self.old ++ more) }
        ensures err { OnErr result (self.new ≡ self.old) }
    {
        let List { mut items } = more;
        if self.items.is_empty() {
            self.items = items;
            return Ok(());
        }
        self.items.append(&mut items)?;
        Ok(())
    }

    /// Removes the items whose flag is set, and counts them. It takes no memory.
    pub fn remove_marked(&mut self, doomed: &[bool]) -> u64
        requires { length doomed.now ≡ length self.old }
        ensures kept { self.new ≡ unmarked doomed.now self.old }
        ensures counted { result ≡ count_by (λ flag. flag) doomed.now }
    {
        let kept = keep_in_front(&mut self.items, doomed);
        let removed = self.items.len() - kept;
        self.items.truncate(kept);
        removed as u64
    }
}

/// Moves the items whose flag isn't set to the front, in order, and says how many there are.
fn keep_in_front<T>(items: &mut [T], doomed: &[bool]) -> usize
    requires { length doomed.now ≡ length items.old }
    ensures kept { take result items.new ≡ unmarked doomed.now items.old }
    ensures counted { result + count_by (λ flag. flag) doomed.now ≡ length doomed.now }
{
    let mut kept = 0;
    for i in 0..items.len() {
        if !doomed[i] {
            items.swap(kept, i);
            kept += 1;
        }
    }
    kept
}

impl<T: Copyable> List<T> {
    /// A copy of the items, with no room to spare. It fails only for want of memory.
    pub fn copy_of(alloc: Global, items: &[T]) -> Result<List<T>, NoMemory>
        ensures { IfOk result (λ copy. copy ≡ items.now) }
    {
        let mut copy = Vec::with_capacity(alloc, items.len())?;
        add_copies(alloc, &mut copy, items)?;
        Ok(List { items: copy })
    }
}

impl<T: Copyable> Copyable for List<T> {
    fn copy(&self, alloc: Global) -> Result<List<T>, NoMemory> {
        List::copy_of(alloc, self.items.as_slice())
    }
}

impl List<usize> {
    /// As many consecutive numbers, from the first on. It fails only for want of memory, or where no `usize` holds the number
    /// behind the last.
    pub fn range(alloc: Global, first: usize, count: usize) -> Result<List<usize>, NoMemory>
        ensures { IfOk result (λ numbers. numbers ≡ range_with_len first count) }
    {
        let Some(end) = first.checked_add(count) else {
            return Err(NoMemory);
        };
        let mut numbers = List::with_room(alloc, count)?;
        for number in first..end {
            numbers.push(number)?;
        }
        Ok(numbers)
    }
}
