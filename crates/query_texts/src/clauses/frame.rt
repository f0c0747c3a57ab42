//! In which frame a query is written.
ghost use Rattle.std.specs.Prelude.{◌≡◌, IfOk};
ghost use Rattle.query_texts.specs.clauses.Names.{deeper};

use crate::clauses::tables::TableNames;
use perm_values::{Bytes, NoMemory};
use std::alloc::Global;

/// In which frame a query is written: what tables are called, what the names of its own columns begin with, and how the
/// columns that it gives are called, by a prefix, and numbers from the first on.
#[derive(Clone, Copy)]
pub struct Frame<'a> {
    pub tables: &'a [TableNames],
    pub prefix: &'a [u8],
    pub out: &'a [u8],
    pub first: usize,
}

/// What the names of the columns of a query within another begin with.
pub fn deeper(alloc: Global, prefix: &[u8]) -> Result<Bytes, NoMemory>
    ensures { IfOk result (λ longer. longer ≡ deeper prefix.now) }
{
    let mut longer = Bytes::new(alloc);
    longer.add(b"c")?;
    longer.add(prefix)?;
    Ok(longer)
}
