//! The scope of some of the items of FROM.
ghost use Rattle.std.specs.Prelude.{◌≡◌, ◌++◌, List, length, take, drop, IfOk, OnOk};
ghost use Rattle.name_meaning.specs.Scopes.{ScopeItem, scope_of};
ghost use Rattle.name_made_parts.specs.Segments.{back_in, column_in, columns_in, name_in};
ghost use Rattle.name_made_parts.specs.Sources.{StandsIn};

use name_meaning::{Scope, ScopeColumn, ScopeColumns};
use perm_catalog::NameList;
use perm_values::{Chars, Copyable, NoMemory};
use std::alloc::Global;

/// The scope of as many items as `count` says, behind the first ones of a scope.
pub fn segment(alloc: Global, scope: &Scope, first: usize, count: usize) -> Result<Scope, NoMemory>
    ensures { IfOk result (λ part. (items : List ScopeItem) → StandsIn (Some items) first scope.now
        → length items ≡ count → part ≡ scope_of items) }
{
    let items = names_in(alloc, scope.items.as_slice(), first, count)?;
    let columns = columns_in(alloc, scope.columns.as_slice(), first, count)?;
    Ok(Scope {
        items,
        columns,
        groups: None,
    })
}

/// The number among the items behind the first ones, if it is one of as many as `count` says.
fn back_in(first: usize, count: usize, number: usize) -> Option<usize>
    ensures { result ≡ back_in first count number }
{
    if number < first {
        return None;
    }
    let back = number - first;
    if back < count {
        return Some(back);
    }
    None
}

fn names_in(
    alloc: Global,
    names: &[Chars],
    first: usize,
    count: usize,
) -> Result<NameList, NoMemory>
    ensures { IfOk result (λ found. found ≡ take count (drop first names.now)) }
{
    let mut found = NameList::none(alloc);
    for place in 0..names.len() {
        add_name(
            alloc,
            &names[place],
            back_in(first, count, place),
            &mut found,
        )?;
    }
    Ok(found)
}

fn add_name(
    alloc: Global,
    name: &Chars,
    back: Option<usize>,
    found: &mut NameList,
) -> Result<(), NoMemory>
    ensures { OnOk result (found.new ≡ found.old ++ name_in back name.now) }
{
    match back {
        None => Ok(()),
        Some(_) => found.push(alloc, name.copy(alloc)?),
    }
}

fn columns_in(
    alloc: Global,
    columns: &[ScopeColumn],
    first: usize,
    count: usize,
) -> Result<ScopeColumns, NoMemory>
    ensures { IfOk result (λ found. found ≡ columns_in first count columns.now) }
{
    let mut found = ScopeColumns::none(alloc);
    for column in columns {
        add_column(
            alloc,
            column,
            back_in(first, count, column.item),
            &mut found,
        )?;
    }
    Ok(found)
}

/// The column under another number of its item, if there is one.
fn add_column(
    alloc: Global,
    column: &ScopeColumn,
    back: Option<usize>,
    found: &mut ScopeColumns,
) -> Result<(), NoMemory>
    ensures { OnOk result (found.new ≡ found.old ++ column_in back column.now) }
{
    match back {
        None => Ok(()),
        Some(item) => found.push(ScopeColumn {
            item,
            name: column.name.copy(alloc)?,
            kind: column.kind,
        }),
    }
}
