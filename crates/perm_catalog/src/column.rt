ghost use Rattle.std.specs.Prelude.{◌≡◌, IfOk};

use perm_values::{Chars, Copyable, Kind, NoMemory};
use std::alloc::Global;

/// A column of a table.
#[derive(Drop)]
pub struct Column {
    pub name: Chars,
    pub kind: Kind,
}

impl Copyable for Column {
    fn copy(&self, alloc: Global) -> Result<Column, NoMemory> {
        Ok(Column {
            name: self.name.copy(alloc)?,
            kind: self.kind,
        })
    }
}
