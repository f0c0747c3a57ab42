ghost use Rattle.std.specs.Prelude.{◌≡◌, ◌++◌, IfOk, OnOk};

use crate::NoMemory;
use std::alloc::Global;

/// What can be copied where there is memory for it.
pub trait Copyable: Drop {
    /// A value that equals this one. It fails only for want of memory.
    fn copy(&self, alloc: Global) -> Result<Self, NoMemory>
        ensures { IfOk result (λ copy. copy ≡ self.now) };
}

impl Copyable for usize {
    fn copy(&self, _alloc: Global) -> Result<usize, NoMemory> {
        Ok(*self)
    }
}

impl<T: Copyable> Copyable for Option<T> {
    fn copy(&self, alloc: Global) -> Result<Option<T>, NoMemory> {
        match self {
            Some(part) => Ok(Some(part.copy(alloc)?)),
            None => Ok(None),
        }
    }
}

/// Adds copies of `more` at the end.
pub(crate) fn add_copies<T: Copyable>(
    alloc: Global,
    items: &mut Vec<T>,
    more: &[T],
) -> Result<(), NoMemory>
    ensures { OnOk result (items.new.items ≡ items.old.items ++ more.now) }
{
    for item in more {
        items.push(item.copy(alloc)?)?;
    }
    Ok(())
}
