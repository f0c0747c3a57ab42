//! Items of FROM in scope, side by side.
ghost use Rattle.std.specs.Prelude.{◌≡◌, ◌++◌, [], IfOk, OnOk, map};
ghost use Rattle.name_meaning.specs.Froms.{table_columns};
ghost use Rattle.name_meaning.specs.Scopes.{numbered_columns, scope_of};
ghost use Rattle.name_seen_parts.specs.Scopes.{item_scope, moved_by, scope_beside};

use name_meaning::{Scope, ScopeColumn, ScopeColumns};
use perm_catalog::{Column, NameList};
use perm_values::{Chars, Copyable, NoMemory};
use std::alloc::Global;

/// The scope of no items. It takes no memory.
pub fn no_items(alloc: Global) -> Scope
    ensures { result ≡ scope_of [] }
{
    Scope {
        items: NameList::none(alloc),
        columns: ScopeColumns::none(alloc),
        groups: None,
    }
}

/// Adds the items of another scope behind those of this one. It fails only for want of memory.
pub fn add_items(alloc: Global, left: &mut Scope, right: &Scope) -> Result<(), NoMemory>
    ensures { OnOk result (left.new ≡ scope_beside left.old right.now) }
{
    let count = left.items.len();
    add_moved(alloc, &mut left.columns, right.columns.as_slice(), count)?;
    left.items.append(alloc, &right.items)?;
    left.groups = None;
    Ok(())
}

/// Adds the columns, with as many items before theirs.
fn add_moved(
    alloc: Global,
    found: &mut ScopeColumns,
    columns: &[ScopeColumn],
    count: usize,
) -> Result<(), NoMemory>
    ensures { OnOk result (found.new ≡ found.old ++ map (moved_by count) columns.now) }
{
    for column in columns {
        found.push(moved_column(alloc, column, count)?)?;
    }
    Ok(())
}

fn moved_column(alloc: Global, column: &ScopeColumn, count: usize) -> Result<ScopeColumn, NoMemory>
    ensures { IfOk result (λ moved. moved ≡ moved_by count column.now) }
{
    match count.checked_add(column.item) {
        None => Err(NoMemory),
        Some(item) => Ok(ScopeColumn {
            item,
            name: column.name.copy(alloc)?,
            kind: column.kind,
        }),
    }
}

/// Adds an item of this name and these columns behind those in scope. It fails only for want of memory.
pub fn add_item(
    alloc: Global,
    scope: &mut Scope,
    name: Chars,
    columns: &[Column],
) -> Result<(), NoMemory>
    ensures { OnOk result (scope.new ≡ scope_beside scope.old (item_scope name columns.now)) }
{
    let number = scope.items.len();
    add_columns(alloc, &mut scope.columns, columns, number)?;
    scope.items.push(alloc, name)?;
    scope.groups = None;
    Ok(())
}

fn add_columns(
    alloc: Global,
    found: &mut ScopeColumns,
    columns: &[Column],
    number: usize,
) -> Result<(), NoMemory>
    ensures { OnOk result (found.new ≡ found.old ++ numbered_columns number (table_columns columns.now)) }
{
    for column in columns {
        found.push(ScopeColumn {
            item: number,
            name: column.name.copy(alloc)?,
            kind: column.kind,
        })?;
    }
    Ok(())
}
