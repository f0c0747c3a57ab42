//! Writes SELECT lists.
use crate::called::told_apart;
use crate::columns::{Column, Seen, column_at};
use crate::expressions::push_bare;
use crate::words::{aggregate_name, aggregate_words};
use bag_algebra::{AggFn, Aggr, Expr, Item};
use perm_values::{Bytes, Copyable, List, NoMemory};
use std::alloc::Global;
use tree_texts::Draft;

/// What a column that stands as it is is called; of other expressions nothing.
fn own_name<'a>(expr: &Expr, seen: &'a Seen<'a>) -> &'a [u8] {
    match expr {
        Expr::Col { level, place } => match column_at(&*seen, *level, *place) {
            Some(column) => column.name.as_slice(),
            None => b"",
        },
        _ => b"",
    }
}

/// What the column of an expression is called: as the column that it is.
fn name_of(alloc: Global, expr: &Expr, seen: &Seen) -> Result<Bytes, NoMemory> {
    let mut name = Bytes::new(alloc);
    match expr {
        Expr::Col { .. } => name.add(own_name(expr, &*seen))?,
        _ => name.add(b"value")?,
    }
    Ok(name)
}

/// The names that are wanted, or if there are none, these told apart.
fn wanted_or(alloc: Global, wanted: &[Bytes], own: List<Bytes>) -> Result<List<Bytes>, NoMemory> {
    if wanted.is_empty() {
        told_apart(alloc, own.as_slice())
    } else {
        List::copy_of(alloc, wanted)
    }
}

/// What the columns of items are called.
pub(crate) fn item_names(
    alloc: Global,
    items: &[Item],
    seen: &Seen,
    wanted: &[Bytes],
) -> Result<List<Bytes>, NoMemory> {
    let mut names = List::new(alloc);
    for item in items {
        names.push(name_of(alloc, &item.expr, seen)?)?;
    }
    wanted_or(alloc, wanted, names)
}

/// What columns are called that stand as they are.
pub(crate) fn column_names(
    alloc: Global,
    columns: &[Column],
    wanted: &[Bytes],
) -> Result<List<Bytes>, NoMemory> {
    let mut names = List::new(alloc);
    for column in columns {
        names.push(column.name.copy(alloc)?)?;
    }
    wanted_or(alloc, wanted, names)
}

/// What the columns of groups and of aggregates are called.
pub(crate) fn group_names(
    alloc: Global,
    columns: &[Column],
    groups: &[usize],
    aggregates: &[Aggr],
    wanted: &[Bytes],
) -> Result<List<Bytes>, NoMemory> {
    let mut names = List::new(alloc);
    for place in groups {
        if let Some(column) = columns.get(*place) {
            names.push(column.name.copy(alloc)?)?;
        }
    }
    let all = with_aggregates(alloc, aggregates, names)?;
    wanted_or(alloc, wanted, all)
}

fn with_aggregates(
    alloc: Global,
    aggregates: &[Aggr],
    mut names: List<Bytes>,
) -> Result<List<Bytes>, NoMemory> {
    for aggregate in aggregates {
        let mut name = Bytes::new(alloc);
        name.add(aggregate_name(aggregate.function))?;
        names.push(name)?;
    }
    Ok(names)
}

/// A comma, unless an item is the first.
fn push_comma(number: usize, draft: &mut Draft) -> Result<(), NoMemory> {
    draft.push_unless_none(number, b", ")
}

/// AS and the name of a number, unless a column has it already.
fn push_as(own: &[u8], names: &[Bytes], number: usize, draft: &mut Draft) -> Result<(), NoMemory> {
    match names.get(number) {
        Some(name) if name.as_slice() == own => Ok(()),
        Some(name) => {
            draft.push(b"AS ")?;
            draft.push_name(name.as_slice())
        }
        None => Ok(()),
    }
}

/// Items by their names.
pub(crate) fn push_items(
    items: &[Item],
    seen: &Seen,
    subs: &[Bytes],
    names: &[Bytes],
    draft: &mut Draft,
) -> Result<(), NoMemory> {
    for (number, item) in items.iter().enumerate() {
        push_comma(number, draft)?;
        push_bare(&item.expr, seen, subs, draft)?;
        push_as(own_name(&item.expr, &*seen), names, number, draft)?;
    }
    Ok(())
}

/// Columns by their names.
pub(crate) fn push_columns(
    columns: &[Column],
    names: &[Bytes],
    draft: &mut Draft,
) -> Result<(), NoMemory> {
    for (number, column) in columns.iter().enumerate() {
        push_comma(number, draft)?;
        draft.push(column.reference.as_slice())?;
        push_as(column.name.as_slice(), names, number, draft)?;
    }
    Ok(())
}

/// The columns of groups by their names.
pub(crate) fn push_groups(
    columns: &[Column],
    groups: &[usize],
    names: &[Bytes],
    draft: &mut Draft,
) -> Result<(), NoMemory> {
    for (number, place) in groups.iter().enumerate() {
        push_comma(number, draft)?;
        if let Some(column) = columns.get(*place) {
            draft.push(column.reference.as_slice())?;
            push_as(column.name.as_slice(), names, number, draft)?;
        }
    }
    Ok(())
}

fn push_reference(columns: &[Column], place: usize, draft: &mut Draft) -> Result<(), NoMemory> {
    match columns.get(place) {
        Some(column) => draft.push(column.reference.as_slice()),
        None => Ok(()),
    }
}

/// Aggregates by their names, behind so many groups.
pub(crate) fn push_aggregates(
    aggregates: &[Aggr],
    groups: usize,
    seen: &Seen,
    names: &[Bytes],
    draft: &mut Draft,
) -> Result<(), NoMemory> {
    for (number, aggregate) in aggregates.iter().enumerate() {
        let place = groups.saturating_add(number);
        push_comma(place, draft)?;
        push_aggregate(aggregate.function, &aggregate.argument, seen, draft)?;
        push_as(b"", names, place, draft)?;
    }
    Ok(())
}

fn push_aggregate(
    function: AggFn,
    argument: &Option<Expr>,
    seen: &Seen,
    draft: &mut Draft,
) -> Result<(), NoMemory> {
    draft.push(aggregate_words(function))?;
    if let Some(part) = argument {
        push_bare(part, seen, &[], draft)?;
    }
    draft.push(b") ")
}

/// GROUP BY columns, if there are any.
pub(crate) fn push_group_by(
    columns: &[Column],
    groups: &[usize],
    draft: &mut Draft,
) -> Result<(), NoMemory> {
    draft.push_unless_none(groups.len(), b"GROUP BY ")?;
    for (number, place) in groups.iter().enumerate() {
        push_comma(number, draft)?;
        push_reference(columns, *place, draft)?;
    }
    Ok(())
}
