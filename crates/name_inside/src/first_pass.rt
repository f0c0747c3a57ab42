//! What the first pass of name analysis says of queries, of cores and of items of FROM.
ghost use Rattle.std.specs.Prelude.{◌≡◌, ℕ, List as Items, IfOk, OnOk};
ghost use Rattle.name_meaning.specs.Froms.{from_all, scope_name};
ghost use Rattle.name_meaning.specs.Meanings.{query_means_at};
ghost use Rattle.name_meaning.specs.Trees.{from_item_of, query_of, source_of};
ghost use Rattle.perm_catalog.specs.Contents.{Contents};
ghost use Rattle.name_seen_parts.specs.Standing.{around_of};
ghost use Rattle.perm_catalog.specs.Sound.{IsSound};
ghost use Rattle.sql_tree.specs.declared.query.Core.{out-Core};
ghost use Rattle.name_made_parts.specs.Cored.{select_parts, source_parts, having_part};
ghost use Rattle.name_inside.specs.Passed.{HasScope, HasWidth, IsReadAs, PutsRead};

use name_made_parts::scope_or_none;
use name_meaning::Scope;
use name_seen::{query_seen, read_source};
use name_seen_cores::{Reading, behind_groups};
use name_seen_parts::{Around, Refusal, add_item, scope_name};
use perm_catalog::Column;
use perm_values::{Chars, List, NoMemory};
use sql_tree::{Core, FromItem, QueryTree};
use std::alloc::Global;

/// The number of a query's columns; none where it breaks a rule.
pub(crate) fn width_of(tree: &QueryTree, around: &Around) -> Result<Option<usize>, NoMemory>
    requires { IsSound around.now.catalog.now }
    ensures { IfOk result (HasWidth (query_means_at (query_of around.now.catalog.now tree.now)
        (around_of around.now))) }
{
    match query_seen(tree, around) {
        Ok(shown) => Ok(Some(shown.columns.len())),
        Err(Refusal::Break(_)) => Ok(None),
        Err(Refusal::NoMemory) => Err(NoMemory),
    }
}

/// The scope of a core's list; none where its FROM breaks a rule.
pub(crate) fn scope_of(core: &Core, around: &Around) -> Result<Option<Scope>, NoMemory>
    requires { IsSound around.now.catalog.now }
    ensures { IfOk result (HasScope (from_all (around_of around.now).outer
        (source_parts around.now.catalog.now core.now))
        (out-Core core.now).groups (having_part around.now.catalog.now core.now)
        (select_parts around.now.catalog.now core.now)) }
{
    match scope_or_none(core.sources.as_slice(), around)? {
        None => Ok(None),
        Some(own) => {
            let scope = behind_groups(around.alloc, core, own)?;
            Ok(Some(scope))
        }
    }
}

/// What an item of FROM reads whose subquery stands there, under its name; none where it breaks a rule.
pub(crate) fn item_read(
    item: &FromItem,
    around: &Around,
) -> Result<Option<(Chars, List<Column>)>, NoMemory>
    requires { IsSound around.now.catalog.now }
    ensures { IfOk result (λ read. (names : Items (Items ℕ))
        → IsReadAs ((from_item_of around.now.catalog.now item.now).means (around_of around.now) names) read) }
{
    match read_source(&item.source, around) {
        Ok(reading) => Ok(Some(named_columns(around.alloc, item, reading)?)),
        Err(Refusal::Break(_)) => Ok(None),
        Err(Refusal::NoMemory) => Err(NoMemory),
    }
}

/// The name of an item with the columns that it reads.
fn named_columns(
    alloc: Global,
    item: &FromItem,
    reading: Reading,
) -> Result<(Chars, List<Column>), NoMemory>
    ensures name { (c : Contents) → IfOk result (λ read. read.0
        ≡ scope_name (source_of c item.now.source) item.now.alias) }
    ensures columns { IfOk result (λ read. read.1 ≡ reading.columns) }
{
    let Ok(name) = scope_name(alloc, item) else {
        drop(reading);
        return Err(NoMemory);
    };
    let Reading {
        columns,
        kinds: _kinds,
        plain: _plain,
    } = reading;
    Ok((name, columns))
}

/// Puts what an item reads in scope, if it is known.
pub(crate) fn put_read(
    alloc: Global,
    scope: &mut Scope,
    read: Option<(Chars, List<Column>)>,
) -> Result<(), NoMemory>
    ensures { OnOk result (PutsRead read scope.old scope.new) }
{
    match read {
        None => Ok(()),
        Some((name, columns)) => add_item(alloc, scope, name, columns.as_slice()),
    }
}
