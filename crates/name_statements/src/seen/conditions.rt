//! The condition of DELETE.
ghost use Rattle.std.specs.Prelude.{◌≡◌, ◌∷◌, ◌++◌, [], IfOk};
ghost use Rattle.name_seen_parts.specs.Told.{Tells};
ghost use Rattle.name_seen_parts.specs.Seen.{first_or};
ghost use Rattle.name_meaning.specs.Froms.{condition_breaks, table_columns};
ghost use Rattle.name_meaning.specs.Scopes.{numbered_columns, scope_of};
ghost use Rattle.name_meaning.specs.Meanings.{means_at};
ghost use Rattle.name_meaning.specs.Trees.{part_of};
ghost use Rattle.name_meaning.specs.Statements as words;
ghost use Rattle.perm_catalog.specs.Sound.{IsSound};

use crate::seen::values::alone;
use name_meaning::{Scope, ScopeColumn, ScopeColumns};
use name_seen::kind_of;
use name_seen_parts::{Here, Refusal, Scopes, condition_over, inside};
use perm_catalog::{Catalog, Column, NameList, TableEntry};
use perm_values::{Chars, Copyable, NoMemory};
use sql_tree::{ExprTree, Name};
use std::alloc::Global;

/// The first break of the condition, which sees the table alone.
pub fn delete_break(
    alloc: Global,
    catalog: &Catalog,
    name: &Name,
    table: &TableEntry,
    condition: &Option<ExprTree>,
) -> Result<(), Refusal>
    requires { IsSound catalog.now }
    ensures { Tells (first_or (words.delete_breaks catalog.now name.now condition.now table.now) tt) result }
{
    match condition {
        None => Ok(()),
        Some(tree) => {
            let scope = table_scope(alloc, &name.text, table.columns.as_slice())?;
            condition_break(alloc, catalog, &scope, tree)
        }
    }
}

/// The first break of a condition in a scope of its own.
fn condition_break(
    alloc: Global,
    catalog: &Catalog,
    scope: &Scope,
    tree: &ExprTree,
) -> Result<(), Refusal>
    requires { IsSound catalog.now }
    ensures { Tells (first_or (condition_breaks (part_of catalog.now tree.now).at
        (means_at (part_of catalog.now tree.now) (words.bare (scope.now ∷ [])))) tt) result }
{
    let outermost = Scopes::Outermost;
    let scopes = inside(&*scope, false, &outermost)?;
    let here = Here {
        alloc,
        catalog: &*catalog,
        scopes: &scopes,
        standing: alone(),
    };
    condition_over(tree.at, kind_of(tree, &here))
}

/// The scope of a table's columns under its name.
pub fn table_scope(alloc: Global, name: &Chars, columns: &[Column]) -> Result<Scope, NoMemory>
    ensures { IfOk result (λ scope.
        scope ≡ scope_of (record { name = name.now; columns = table_columns columns.now } ∷ [])) }
{
    let mut items = NameList::none(alloc);
    items.push(alloc, name.copy(alloc)?)?;
    Ok(Scope {
        items,
        columns: numbered(alloc, columns)?,
        groups: None,
    })
}

/// The columns of the first item.
fn numbered(alloc: Global, columns: &[Column]) -> Result<ScopeColumns, NoMemory>
    ensures { IfOk result (λ numbered. numbered ≡ numbered_columns 0 (table_columns columns.now)) }
{
    let mut numbered = ScopeColumns::none(alloc);
    for column in columns {
        numbered.push(ScopeColumn {
            item: 0,
            name: column.name.copy(alloc)?,
            kind: column.kind,
        })?;
    }
    Ok(numbered)
}
