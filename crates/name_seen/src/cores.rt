//! The columns of cores.
ghost use Rattle.std.specs.Prelude.{◌≡◌, true, List as Items, map};
ghost use Rattle.perm_catalog.specs.Sound.{IsSound};
ghost use Rattle.name_meaning.specs.Froms.{FromMeant, in_clause, optional_meant};
ghost use Rattle.name_meaning.specs.Meanings.{means_at};
ghost use Rattle.name_meaning.specs.Scopes.{ScopeItem, scope_of};
ghost use Rattle.name_meaning.specs.Trees.{core_of, item_of, part_of};
ghost use Rattle.name_meaning.specs.laws.Facts.{both_facts, facts_of};
ghost use Rattle.name_seen_parts.specs.Named.{scopes_of};
ghost use Rattle.name_seen_parts.specs.Standing.{around_of};
ghost use Rattle.name_seen_cores.specs.from.Added.{facts_in};
ghost use Rattle.name_seen_cores.specs.from.Queried.{ColumnsSeen};
ghost use Rattle.name_seen_cores.specs.declared.from.facts.Facts.{Facts as Gathered};
ghost use Rattle.name_seen_cores.specs.Behind.{ConditionSeen, core_behind, optional_part};
ghost use Rattle.name_seen_cores.specs.Listed.{ItemSeen, ListSeen, seen_at};
ghost use Rattle.name_seen_cores.specs.Expressed.{ExpressionSeen};

use crate::expressions::expression_seen;
use crate::sources::from_scope;
use name_meaning::Scope;
use name_seen_cores::{Facts, add_star, add_table_star, add_value, grouped_scope, in_clause};
use name_seen_parts::{Around, Refusal, ShownColumn, condition_over, inside, word_break};
use perm_values::{Kind, List};
use sql_tree::{Core, ExprTree, SelectItem};

/// The columns of a core, or its first break. Its facts come behind those so far.
#[cycle(seen)]
pub(crate) fn core_seen(
    core: &Core,
    around: &Around,
    facts: &mut Facts,
) -> Result<List<ShownColumn>, Refusal>
    requires { IsSound around.now.catalog.now }
    ensures { ColumnsSeen ((core_of around.now.catalog.now core.now).means (around_of around.now)) facts.old
        facts.new result }
{
    word_break(around.may_ask, core.provenance)?;
    let own = from_scope(core.sources.as_slice(), around, facts)?;
    core_clauses(core, own, around, facts)
}

/// The columns of a core with these items of FROM.
#[cycle(seen)]
fn core_clauses(
    core: &Core,
    own: Scope,
    around: &Around,
    facts: &mut Facts,
) -> Result<List<ShownColumn>, Refusal>
    requires { IsSound around.now.catalog.now }
    ensures { (before : Gathered) (input : FromMeant) (items : Items ScopeItem) → own ≡ scope_of items
        → facts_in facts.old ≡ both_facts (facts_in before) (facts_of input.query)
        → ColumnsSeen (core_behind around.now.catalog.now core.now (around_of around.now) input items) before
        facts.new result }
{
    condition_seen(&core.condition, &own, false, around, facts)?;
    let scope = grouped_scope(around.alloc, core, own)?;
    condition_seen(&core.having, &scope, true, around, facts)?;
    list_seen(
        core.items.as_slice(),
        !core.sources.is_empty(),
        &scope,
        around,
        facts,
    )
}

/// That a condition of a clause or a join, where there is one, breaks nothing and is a truth value, or its first break.
#[cycle(seen)]
pub(crate) fn condition_seen(
    condition: &Option<ExprTree>,
    scope: &Scope,
    aggregates: bool,
    around: &Around,
    facts: &mut Facts,
) -> Result<(), Refusal>
    requires { IsSound around.now.catalog.now }
    ensures { ConditionSeen (optional_part around.now.catalog.now condition.now)
        (optional_meant (in_clause scope.now (scopes_of around.now.outer.now) aggregates)
        (optional_part around.now.catalog.now condition.now))
        facts.old facts.new result }
{
    match condition {
        None => Ok(()),
        Some(tree) => condition_over(tree.at, clause_kind(tree, scope, aggregates, around, facts)),
    }
}

/// The kind of an expression in a clause of a core with this scope, or its first break.
#[cycle(seen)]
fn clause_kind(
    tree: &ExprTree,
    scope: &Scope,
    aggregates: bool,
    around: &Around,
    facts: &mut Facts,
) -> Result<Option<Kind>, Refusal>
    requires { IsSound around.now.catalog.now }
    ensures { ExpressionSeen (means_at (part_of around.now.catalog.now tree.now)
        (in_clause scope.now (scopes_of around.now.outer.now) aggregates)) facts.old
        facts.new result }
{
    let scopes = inside(scope, false, around.outer)?;
    let place = (&*around).seeing(&scopes, in_clause(aggregates));
    expression_seen(tree, &place, facts)
}

/// The columns of a SELECT list, or its first break.
#[cycle(seen)]
fn list_seen(
    items: &[SelectItem],
    has_from: bool,
    scope: &Scope,
    around: &Around,
    facts: &mut Facts,
) -> Result<List<ShownColumn>, Refusal>
    requires { IsSound around.now.catalog.now }
    ensures { ListSeen (map (seen_at has_from scope.now
        (in_clause scope.now (scopes_of around.now.outer.now) true))
        (map (item_of around.now.catalog.now) items.now)) facts.old facts.new result }
{
    let mut columns = List::new(around.alloc);
    for item in items {
        list_item(item, has_from, scope, around, &mut columns, facts)?;
    }
    Ok(columns)
}

/// The columns of one more item of a SELECT list behind those so far, or its first break.
#[cycle(seen)]
fn list_item(
    item: &SelectItem,
    has_from: bool,
    scope: &Scope,
    around: &Around,
    columns: &mut List<ShownColumn>,
    facts: &mut Facts,
) -> Result<(), Refusal>
    requires { IsSound around.now.catalog.now }
    ensures { ItemSeen (seen_at has_from scope.now
        (in_clause scope.now (scopes_of around.now.outer.now) true)
        (item_of around.now.catalog.now item.now)) columns.old columns.new facts.old facts.new result }
{
    match item {
        SelectItem::Star { at } => add_star(around.alloc, has_from, scope, *at, columns),
        SelectItem::TableStar { table } => add_table_star(around.alloc, scope, table, columns),
        SelectItem::Value { expr, name } => {
            let kind = clause_kind(expr, scope, true, around, facts)?;
            Ok(add_value(around.alloc, expr, name, kind, columns)?)
        }
    }
}
