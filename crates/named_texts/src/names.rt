//! What tables are called, and what sources of FROM have been called so far.
use crate::called::Called;
use perm_values::{Bytes, NoMemory};
use query_texts::{TableNames, table_of};
use std::alloc::Global;

/// What tables are called, and what the sources of a text were called so far.
#[derive(Drop)]
pub(crate) struct Names<'a> {
    alloc: Global,
    tables: &'a [TableNames],
    called: Called,
}

impl<'a> Names<'a> {
    pub(crate) fn new(alloc: Global, tables: &'a [TableNames]) -> Names<'a> {
        Names {
            alloc,
            tables,
            called: Called::new(alloc),
        }
    }

    pub(crate) fn alloc(&self) -> Global {
        self.alloc
    }

    /// The table of an identity, if it is called anything.
    pub(crate) fn table(&self, id: u64) -> Option<&'a TableNames> {
        table_of(self.tables, id)
    }

    /// What one more source is called: a name, with a number where a source is called so already.
    pub(crate) fn call(&mut self, name: &[u8]) -> Result<Bytes, NoMemory> {
        self.called.call(name)
    }
}
