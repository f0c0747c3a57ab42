//! Items of FROM in scope.
ghost use Rattle.std.specs.Prelude.{◌≡◌, OnOk};
ghost use Rattle.name_meaning.specs.Froms.{Read, item_meant, label_of, scope_name};
ghost use Rattle.name_meaning.specs.Trees.{source_of};
ghost use Rattle.name_meaning.specs.laws.Facts.{both_facts};
ghost use Rattle.perm_catalog.specs.Contents.{Contents};
ghost use Rattle.name_seen_cores.specs.from.Added.{facts_in};
ghost use Rattle.name_seen_parts.specs.Scopes.{item_scope, scope_beside};
ghost use Rattle.name_seen_cores.specs.from.Readings.{IsRead, ItemSeen, KeepsNames};

use crate::from::facts::Facts;
use crate::from::marks::with_mark;
use crate::from::reading::Reading;
use name_meaning::Scope;
use name_seen_parts::{Around, Refusal, add_item, item_break, scope_name};
use perm_catalog::Names;
use perm_values::{Chars, NoMemory};
use sql_tree::FromItem;
use std::alloc::Global;

/// Puts an item with what it reads in scope, behind items of these names, to which its own comes, and its facts behind those
/// so far. A break is the item's first one; otherwise it fails only for want of memory.
pub fn put_item(
    item: &FromItem,
    names: &mut Names,
    scope: &mut Scope,
    around: &Around,
    reading: Reading,
    facts: &mut Facts,
) -> Result<(), Refusal>
    ensures seen { (c : Contents) (read : Read) → IsRead read reading →
        ItemSeen (item_meant item.now.at item.now.mark names.old.known.keys
        (scope_name (source_of c item.now.source) item.now.alias)
        (label_of (source_of c item.now.source) item.now.alias) read) scope.old facts.old facts.new scope.new
        result }
    ensures named { OnOk result (KeepsNames names.old.known.keys names.new.known.keys scope.old scope.new) }
{
    let name = scope_name(around.alloc, item)?;
    item_break(item, &name, &*names, reading.columns.as_slice())?;
    let marked = with_mark(around.alloc, item, reading)?;
    names.add(around.alloc, &name)?;
    put_read(around.alloc, scope, name, marked, facts)?;
    Ok(())
}

/// One more item in scope, whose facts come behind those so far.
fn put_read(
    alloc: Global,
    scope: &mut Scope,
    name: Chars,
    reading: Reading,
    facts: &mut Facts,
) -> Result<(), NoMemory>
    ensures wider { OnOk result (scope.new ≡ scope_beside scope.old (item_scope name reading.columns)) }
    ensures adds { OnOk result (facts_in facts.new
        ≡ both_facts (facts_in facts.old) (facts_in reading.plain)) }
{
    let Reading {
        columns,
        kinds: _kinds,
        plain,
    } = reading;
    facts.add(plain)?;
    add_item(alloc, scope, name, columns.as_slice())
}
