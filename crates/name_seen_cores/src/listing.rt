//! Items of a SELECT list, each behind the columns so far.
ghost use Rattle.std.specs.Prelude.{◌≡◌, ◌∷◌, [], ◌++◌, suc, length, filter, map, OnOk};
ghost use Rattle.name_meaning.specs.Items.{named_from, star_meant, table_star_meant, title};
ghost use Rattle.name_meaning.specs.Trees.{part_of};
ghost use Rattle.perm_catalog.specs.Contents.{Contents};
ghost use Rattle.name_seen_parts.specs.Columns.{columns_of};
ghost use Rattle.name_seen_parts.specs.Stars.{is_of};
ghost use Rattle.name_seen_cores.specs.declared.from.facts.Facts.{Facts as Gathered};
ghost use Rattle.name_seen_cores.specs.Listed.{ItemSeen};
ghost use Rattle.name_seen_cores.specs.Shown.{columns_shown, shown};

use crate::names::title;
use name_meaning::{Scope, ScopeColumn};
use name_seen_parts::{Refusal, ShownColumn, is_of, item_number, star, table_star};
use perm_values::{Copyable, Kind, List, NoMemory};
use sql_tree::{ExprTree, Name};
use std::alloc::Global;

/// The columns of `*` at this offset behind those so far, or its break.
pub fn add_star(
    alloc: Global,
    has_from: bool,
    scope: &Scope,
    at: usize,
    columns: &mut List<ShownColumn>,
) -> Result<(), Refusal>
    ensures { (facts : Gathered) → ItemSeen (star_meant has_from scope.now at) columns.old columns.new facts
        facts result }
{
    star(has_from, scope, at)?;
    add_columns(alloc, scope, None, columns)?;
    Ok(())
}

/// The columns of `x.*` behind those so far, or its break.
pub fn add_table_star(
    alloc: Global,
    scope: &Scope,
    table: &Name,
    columns: &mut List<ShownColumn>,
) -> Result<(), Refusal>
    ensures { (facts : Gathered) → ItemSeen (table_star_meant scope.now table.now) columns.old columns.new
        facts facts result }
{
    table_star(scope, table)?;
    match item_number(scope, &table.text) {
        None => Ok(()),
        Some(number) => Ok(add_columns(alloc, scope, Some(number), columns)?),
    }
}

/// The columns of one item of the scope, or of all, behind those so far.
fn add_columns(
    alloc: Global,
    scope: &Scope,
    item: Option<usize>,
    columns: &mut List<ShownColumn>,
) -> Result<(), NoMemory>
    ensures { OnOk result (columns_of columns.new ≡ columns_of columns.old ++ columns_shown item scope.now) }
{
    for column in scope.columns.as_slice() {
        add_if(alloc, item, column, columns)?;
    }
    Ok(())
}

/// The column behind those so far, if it is one of the item.
fn add_if(
    alloc: Global,
    item: Option<usize>,
    column: &ScopeColumn,
    columns: &mut List<ShownColumn>,
) -> Result<(), NoMemory>
    ensures { OnOk result (columns_of columns.new ≡ columns_of columns.old
        ++ map shown (filter (is_of item) (column.now ∷ []))) }
{
    if !is_of(item, column) {
        return Ok(());
    }
    columns.push(ShownColumn {
        name: column.name.copy(alloc)?,
        kind: Some(column.kind),
    })
}

/// The column of an expression of this kind behind those so far.
pub fn add_value(
    alloc: Global,
    tree: &ExprTree,
    name: &Option<Name>,
    kind: Option<Kind>,
    columns: &mut List<ShownColumn>,
) -> Result<(), NoMemory>
    ensures { (c : Contents) → OnOk result (columns_of columns.new
        ≡ columns_of columns.old ++ named_from (suc (length columns.old))
        (record { name = title name.now (part_of c tree.now); kind = kind } ∷ [])) }
{
    let name = title(alloc, name, tree, columns.len() + 1)?;
    columns.push(ShownColumn { name, kind })
}
