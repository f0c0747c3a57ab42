ghost use Rattle.std.specs.Prelude.{◌≡◌, IfOk};

use crate::{Copyable, NoMemory};
use std::alloc::Global;

/// The kind of a column or an expression (ISO/IEC 9075-2, 'Data types', cut to three).
#[derive(Clone, Copy, PartialEq, Eq)]
pub enum Kind {
    Integer,
    Text,
    Boolean,
}

impl Copyable for Kind {
    fn copy(&self, _alloc: Global) -> Result<Kind, NoMemory> {
        Ok(*self)
    }
}
