ghost use Rattle.std.specs.Prelude.{◌≡◌, IfOk};

use crate::{Copyable, NoMemory};
use std::alloc::Global;

/// One key of an ORDER BY: an output column, counted from 0, and its direction.
#[derive(Clone, Copy, PartialEq, Eq)]
pub struct Key {
    pub place: usize,
    pub descending: bool,
}

impl Copyable for Key {
    fn copy(&self, _alloc: Global) -> Result<Key, NoMemory> {
        Ok(*self)
    }
}
