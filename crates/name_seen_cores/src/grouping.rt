//! Whether a core is grouped, and its scope then.
ghost use Rattle.std.specs.Prelude.{◌≡◌, IfOk, map};
ghost use Rattle.std.specs.List.{list_any};
ghost use Rattle.name_meaning.specs.Cores.{group_scope, is_grouped};
ghost use Rattle.name_meaning.specs.Trees.{item_of};
ghost use Rattle.perm_catalog.specs.Contents.{Contents};
ghost use Rattle.sql_tree.specs.declared.query.Core.{out-Core};
ghost use Rattle.name_seen_cores.specs.Behind.{GroupsSeen, is_aggregating, optional_part};

use name_meaning::Scope;
use name_seen_parts::{Refusal, group_places, grouped, groups_break, has_aggregate};
use perm_values::{List, NoMemory};
use sql_tree::{Core, SelectItem};
use std::alloc::Global;

/// The scope of a core behind its GROUP BY, or the first break of that; it is grouped by GROUP BY, by HAVING, or by an
/// aggregate in its SELECT list.
pub fn grouped_scope(alloc: Global, core: &Core, own: Scope) -> Result<Scope, Refusal>
    ensures { (c : Contents) → GroupsSeen own (out-Core core.now).groups
        (optional_part c (out-Core core.now).having)
        (map (item_of c) (out-Core core.now).items) result }
{
    match groups_break(&own, core.groups.as_slice()) {
        Ok(()) => Ok(behind_groups(alloc, core, own)?),
        Err(first) => {
            drop(own);
            Err(Refusal::Break(first))
        }
    }
}

/// The scope of a core behind its GROUP BY, also where that breaks a rule.
pub fn behind_groups(alloc: Global, core: &Core, own: Scope) -> Result<Scope, NoMemory>
    ensures { (c : Contents) → IfOk result (λ scope. scope ≡ group_scope own (out-Core core.now).groups
        (optional_part c (out-Core core.now).having) (map (item_of c) (out-Core core.now).items)) }
{
    match places_of_groups(alloc, core, &own) {
        Ok(groups) => Ok(grouped(own, groups)),
        Err(error) => {
            drop(own);
            Err(error)
        }
    }
}

/// The places of the GROUP BY columns, where the core's rows stand for groups.
pub fn places_of_groups(
    alloc: Global,
    core: &Core,
    own: &Scope,
) -> Result<Option<List<usize>>, NoMemory>
    ensures { (c : Contents) → IfOk result (λ places. places ≡ (group_scope own.now (out-Core core.now).groups
        (optional_part c (out-Core core.now).having) (map (item_of c) (out-Core core.now).items)).groups) }
{
    if !is_grouped(core) {
        return Ok(None);
    }
    Ok(Some(group_places(alloc, own, core.groups.as_slice())?))
}

/// Whether the rows of the core stand for groups.
pub fn is_grouped(core: &Core) -> bool
    ensures { (c : Contents) → result ≡ is_grouped (out-Core core.now).groups
        (optional_part c (out-Core core.now).having) (map (item_of c) (out-Core core.now).items) }
{
    !core.groups.is_empty() || core.having.is_some() || any_aggregates(core.items.as_slice())
}

fn any_aggregates(items: &[SelectItem]) -> bool
    ensures { (c : Contents) → result ≡ list_any is_aggregating (map (item_of c) items.now) }
{
    let mut found = false;
    for item in items {
        found |= aggregates(item);
    }
    found
}

fn aggregates(item: &SelectItem) -> bool
    ensures { (c : Contents) → result ≡ is_aggregating (item_of c item.now) }
{
    match item {
        SelectItem::Star { .. } => false,
        SelectItem::TableStar { .. } => false,
        SelectItem::Value { expr, .. } => has_aggregate(expr),
    }
}
