//! The columns that an expression sees.
use perm_values::{Bytes, Chars, List, NoMemory};
use std::alloc::Global;
use tree_texts::Draft;

/// A column that is seen: what it is called, and how it is referred to.
#[derive(Drop)]
pub(crate) struct Column {
    pub(crate) name: Bytes,
    pub(crate) reference: Bytes,
}

/// The rows that an expression sees: its node's own row, and the outer rows around it.
#[derive(Clone, Copy)]
pub(crate) enum Seen<'a> {
    Nothing,
    Row {
        columns: &'a [Column],
        outer: &'a Seen<'a>,
    },
}

/// The column at a place of the row at a level, if there is one.
pub(crate) fn column_at<'a>(seen: &'a Seen<'a>, level: usize, place: usize) -> Option<&'a Column> {
    let mut here = seen;
    for _step in 0..level {
        match here {
            Seen::Nothing => return None,
            Seen::Row { outer, .. } => here = outer,
        }
    }
    match here {
        Seen::Nothing => None,
        Seen::Row { columns, .. } => columns.get(place),
    }
}

/// The columns of a source, by their names.
pub(crate) fn columns_of_source(
    alloc: Global,
    source: &[u8],
    names: &[Bytes],
) -> Result<List<Column>, NoMemory> {
    let mut columns = List::new(alloc);
    for name in names {
        columns.push(column_of(alloc, source, name.as_slice())?)?;
    }
    Ok(columns)
}

fn column_of(alloc: Global, source: &[u8], name: &[u8]) -> Result<Column, NoMemory> {
    let mut called = Bytes::new(alloc);
    called.add(name)?;
    let mut reference = Draft::new(alloc);
    reference.push_name(source)?;
    reference.push(b". ")?;
    reference.push_name(name)?;
    Ok(Column {
        name: called,
        reference: reference.into_bytes(),
    })
}

/// The names of an answer's columns, or of a table's.
pub(crate) fn bytes_of(alloc: Global, names: &[Chars]) -> Result<List<Bytes>, NoMemory> {
    let mut all = List::new(alloc);
    for name in names {
        let mut bytes = Bytes::new(alloc);
        bytes.add(name.bytes())?;
        all.push(bytes)?;
    }
    Ok(all)
}
