//! Cores, with their clauses.
ghost use Rattle.std.specs.Prelude.{◌≡◌, Bool, not, drop, length, ◌∷◌, [], List, IfOk, OnOk, map, option_map};
ghost use Rattle.perm_catalog.specs.Sound.{IsSound};
ghost use Rattle.name_meaning.specs.Froms.{in_clause, optional_meant};
ghost use Rattle.name_meaning.specs.Meanings.{means_at};
ghost use Rattle.name_meaning.specs.Scopes.{ScopeItem, scope_of};
ghost use Rattle.name_meaning.specs.Trees.{core_of, item_of, part_of};
ghost use Rattle.name_meaning.specs.nodes.Listed.{MakesItems};
ghost use Rattle.name_meaning.specs.nodes.Makes.{MakesQuery};
ghost use Rattle.name_meaning.specs.declared.answer.Break.{Break};
ghost use Rattle.name_seen_parts.specs.Named.{here_only, scopes_of};
ghost use Rattle.name_seen_parts.specs.Standing.{around_of, surroundings};
ghost use Rattle.name_made_parts.specs.Cored.{Keeps, MakesClauses, MakesList, MakesSelected, core_over_items, having_part, items_meant, select_parts, sources_meant};
ghost use Rattle.name_made_parts.specs.Sources.{IsScope};

use crate::expressions::made;
use crate::sources::sources_made;
use bag_algebra::{Aggr, Item, Query};
use name_made_parts::{
    MadeCondition, add_star, add_table_star, behind_aggregates, clauses_of, groups_of, item_kind,
    kept_of, listed_of, nothing_kept, scope_grouped, scope_or_none,
};
use name_meaning::{Clauses, Condition, Listed, Scope, Within, add_value, beside, core_of};
use name_seen_cores::in_clause;
use name_seen_parts::{Around, Here, inside};
use perm_values::{Kind, List, NoMemory};
use sql_tree::{Core, ExprTree, SelectItem};

/// The core where it stands; one whose FROM breaks is of no account.
#[cycle(made)]
pub(crate) fn core_made(core: &Core, wanted: &[Kind], around: &Around) -> Result<Query, NoMemory>
    requires { IsSound around.now.catalog.now }
    ensures { IfOk result (λ query. MakesQuery
        ((core_of around.now.catalog.now core.now).means (around_of around.now)) wanted.now query) }
{
    match scope_or_none(core.sources.as_slice(), around)? {
        None => Ok(Query::Single),
        Some(own) => over_items(core, wanted, around, own),
    }
}

/// The core over all items of its FROM, which are in scope.
#[cycle(made)]
fn over_items(core: &Core, wanted: &[Kind], around: &Around, own: Scope) -> Result<Query, NoMemory>
    requires { IsSound around.now.catalog.now }
    ensures { IfOk result (λ query.
        IsScope (sources_meant around.now.catalog.now (around_of around.now) core.now) own
        → (breaks : List Break) (items : List ScopeItem) → own ≡ scope_of items → MakesQuery
        (core_over_items around.now.catalog.now (around_of around.now) core.now breaks items)
        wanted.now query) }
{
    let scope = scope_grouped(around.alloc, own, core)?;
    let clauses = clauses_made(core, wanted, around, &scope);
    let input = sources_made(core.sources.as_slice(), around, &scope);
    drop(scope);
    core_of(around.alloc, input, clauses)
}

/// What a core does with the rows of its FROM.
#[cycle(made)]
fn clauses_made(
    core: &Core,
    wanted: &[Kind],
    around: &Around,
    scope: &Scope,
) -> Result<Clauses, NoMemory>
    requires { IsSound around.now.catalog.now }
    ensures { IfOk result
        (MakesClauses around.now.catalog.now (around_of around.now) core.now scope.now wanted.now) }
{
    let groups = groups_of(around.alloc, scope);
    let kept = condition_made(&core.condition, false, around, scope);
    let selected = selected_made(core, wanted, around, scope);
    clauses_of(groups, kept, selected, core.distinct)
}

/// HAVING, and the list behind its aggregates.
#[cycle(made)]
fn selected_made(
    core: &Core,
    wanted: &[Kind],
    around: &Around,
    scope: &Scope,
) -> Result<(Option<Condition>, Listed), NoMemory>
    requires { IsSound around.now.catalog.now }
    ensures { IfOk result (λ made. MakesSelected (around_of around.now) scope.now
        (having_part around.now.catalog.now core.now) (select_parts around.now.catalog.now core.now)
        wanted.now made.0 made.1) }
{
    let kept = condition_made(&core.having, true, around, scope)?;
    let MadeCondition {
        condition,
        aggregates,
    } = kept;
    let list = list_made(core.items.as_slice(), wanted, aggregates, around, scope);
    beside(condition, list)
}

/// The condition of WHERE, of HAVING or of ON, if there is one.
#[cycle(made)]
pub(crate) fn condition_made(
    condition: &Option<ExprTree>,
    in_groups: bool,
    around: &Around,
    scope: &Scope,
) -> Result<MadeCondition, NoMemory>
    requires { IsSound around.now.catalog.now }
    ensures { IfOk result (Keeps (optional_meant
        (in_clause (here_only (not in_groups) scope.now) (scopes_of around.now.outer.now) in_groups)
        (option_map (part_of around.now.catalog.now) condition.now))) }
{
    match condition {
        None => Ok(nothing_kept(around.alloc)),
        Some(tree) => kept_made(tree, in_groups, around, scope),
    }
}

/// A condition of WHERE, of HAVING or of ON.
#[cycle(made)]
fn kept_made(
    tree: &ExprTree,
    in_groups: bool,
    around: &Around,
    scope: &Scope,
) -> Result<MadeCondition, NoMemory>
    requires { IsSound around.now.catalog.now }
    ensures { IfOk result (Keeps (Some (means_at (part_of around.now.catalog.now tree.now)
        (in_clause (here_only (not in_groups) scope.now) (scopes_of around.now.outer.now) in_groups)))) }
{
    let scopes = inside(scope, !in_groups, &*around.outer)?;
    let here = Here {
        alloc: around.alloc,
        catalog: &*around.catalog,
        scopes: &scopes,
        standing: in_clause(in_groups),
    };
    let mut found = Within::nothing(around.alloc);
    let expr = made(tree, Kind::Boolean, &here, &mut found);
    kept_of(expr, found)
}

/// The list, behind the aggregates of HAVING.
#[cycle(made)]
fn list_made(
    items: &[SelectItem],
    wanted: &[Kind],
    aggregates: List<Aggr>,
    around: &Around,
    scope: &Scope,
) -> Result<Listed, NoMemory>
    requires { IsSound around.now.catalog.now }
    ensures { IfOk result (MakesList (around_of around.now) scope.now
        (map (item_of around.now.catalog.now) items.now) wanted.now aggregates) }
{
    let Ok(scopes) = inside(scope, false, &*around.outer) else {
        drop(aggregates);
        return Err(NoMemory);
    };
    let here = Here {
        alloc: around.alloc,
        catalog: &*around.catalog,
        scopes: &scopes,
        standing: in_clause(true),
    };
    let mut found = behind_aggregates(around.alloc, aggregates);
    let made_items = items_made(items, wanted, scope, &here, &mut found);
    listed_of(made_items, found)
}

/// The columns of the list.
#[cycle(made)]
fn items_made(
    items: &[SelectItem],
    wanted: &[Kind],
    scope: &Scope,
    here: &Here,
    found: &mut Within,
) -> Result<List<Item>, NoMemory>
    requires { IsSound here.now.catalog.now }
    ensures { IfOk result (λ made. (has_from : Bool) → MakesItems here.now.standing.sublinks
        (items_meant has_from scope.now (surroundings here.now)
        (map (item_of here.now.catalog.now) items.now)) wanted.now [] made found.old found.new) }
{
    let mut made_items = List::new(here.alloc);
    for item in items {
        let Ok(()) = item_listed(item, wanted, scope, here, &mut made_items, found) else {
            drop(made_items);
            return Err(NoMemory);
        };
    }
    Ok(made_items)
}

/// The columns of one item of the list, behind those so far.
#[cycle(made)]
fn item_listed(
    item: &SelectItem,
    wanted: &[Kind],
    scope: &Scope,
    here: &Here,
    items: &mut List<Item>,
    found: &mut Within,
) -> Result<(), NoMemory>
    requires { IsSound here.now.catalog.now }
    ensures { OnOk result ((has_from : Bool) → MakesItems here.now.standing.sublinks
        (items_meant has_from scope.now (surroundings here.now) (item_of here.now.catalog.now item.now ∷ []))
        (drop (length items.old) wanted.now) items.old items.new found.old found.new) }
{
    match item {
        SelectItem::Star { .. } => add_star(scope, items),
        SelectItem::TableStar { table } => add_table_star(scope, table, items),
        SelectItem::Value { expr, .. } => {
            let kind = item_kind(expr, wanted, items.len(), here)?;
            let expr = made(expr, kind, here, found);
            add_value(expr, kind, items)
        }
    }
}
