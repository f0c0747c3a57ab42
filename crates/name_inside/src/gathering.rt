//! The queries and the names of tables and views that stand inside the parts of a query, in the order of the definition.
ghost use Rattle.std.specs.Prelude.{ℕ, Bool, false, List as Items, ◌∷◌, [], IfOk, OnOk, Some, map, flat_map, option_map};
ghost use Rattle.name_meaning.specs.Meanings.{means_at, query_means_at};
ghost use Rattle.name_meaning.specs.Trees.{arm_of, core_of, from_item_of, from_of, item_of, join_of, part_of, query_of, set_of_tree, set_step_of, step_of};
ghost use Rattle.name_meaning.specs.declared.scope.Scope.{Scope as Sight};
ghost use Rattle.name_seen_parts.specs.Standing.{around_beside, around_of, surroundings};
ghost use Rattle.perm_catalog.specs.Sound.{IsSound};
ghost use Rattle.name_inside.specs.Held.{Adds, AddsItem, AddsJoin, clauses_of, held_arm, held_at, held_from, held_item, held_items, held_operand, held_optional, held_query, held_read, held_step};
ghost use Rattle.name_inside.specs.Passed.{IsReadAs};
ghost use Rattle.name_meaning.specs.Froms.{from_all, in_clause, read_named};
ghost use Rattle.name_meaning.specs.Sublinks.{around_of as below};

use crate::first_pass::{item_read, put_read, scope_of, width_of};
use crate::gathered::Gathered;
use name_meaning::Scope;
use name_seen_cores::in_clause;
use name_seen_parts::{Around, Here, inside, is_lateral, no_items};
use perm_catalog::Column;
use perm_values::{Boxed, Chars, List, NoMemory};
use sql_tree::{
    ArmTree, Core, ExprBody, ExprStep, ExprTree, FromItem, FromSource, FromTree, JoinStep, Name,
    QueryTree, SelectItem, SetStep, SetTree,
};

/// Gathers what stands inside a query that breaks nothing behind what was gathered so far.
#[cycle(gathering)]
pub fn query_inside(tree: &QueryTree, around: &Around, found: &mut Gathered) -> Result<(), NoMemory>
    requires { IsSound around.now.catalog.now }
    ensures { OnOk result (Adds (held_query
        (query_means_at (query_of around.now.catalog.now tree.now) (around_of around.now))
        ∷ []) found.old found.new) }
{
    match width_of(tree, around)? {
        None => Ok(()),
        Some(width) => {
            found.add_query(tree.at, width)?;
            set_inside(&tree.body, around, found)?;
            Ok(())
        }
    }
}

#[cycle(gathering)]
fn set_inside(tree: &SetTree, around: &Around, found: &mut Gathered) -> Result<(), NoMemory>
    requires { IsSound around.now.catalog.now }
    ensures { OnOk result (Adds (held_query
        ((set_of_tree around.now.catalog.now tree.now).means (around_of around.now))
        ∷ []) found.old found.new) }
{
    match tree {
        SetTree::Core(core) => {
            core_inside(core.get(), around, found)?;
            Ok(())
        }
        SetTree::Paren(query) => {
            query_inside(query.get(), &around.operand(), found)?;
            Ok(())
        }
        SetTree::Chain { first, steps } => {
            set_inside(first.get(), around, found)?;
            operands_inside(steps.as_slice(), around, found)?;
            Ok(())
        }
    }
}

#[cycle(gathering)]
fn operands_inside(steps: &[SetStep], around: &Around, found: &mut Gathered) -> Result<(), NoMemory>
    requires { IsSound around.now.catalog.now }
    ensures { OnOk result (Adds (map (held_operand (around_of around.now))
        (map (set_step_of around.now.catalog.now) steps.now)) found.old found.new) }
{
    let behind = around.operand();
    for step in steps {
        set_inside(&step.operand, &behind, found)?;
    }
    Ok(())
}

#[cycle(gathering)]
fn core_inside(core: &Core, around: &Around, found: &mut Gathered) -> Result<(), NoMemory>
    requires { IsSound around.now.catalog.now }
    ensures { OnOk result (Adds (held_query
        ((core_of around.now.catalog.now core.now).means (around_of around.now)) ∷ []) found.old found.new) }
{
    match scope_of(core, around)? {
        None => Ok(()),
        Some(scope) => {
            clauses_inside(core, &scope, around, found)?;
            Ok(())
        }
    }
}

#[cycle(gathering)]
fn clauses_inside(
    core: &Core,
    scope: &Scope,
    around: &Around,
    found: &mut Gathered,
) -> Result<(), NoMemory>
    requires { IsSound around.now.catalog.now }
    ensures { OnOk result (Adds (clauses_of around.now.catalog.now (around_of around.now) scope.now core.now)
        found.old found.new) }
{
    let grouped = inside(&*scope, false, &*around.outer)?;
    let in_list = (&*around).seeing(&grouped, in_clause(true));
    items_inside(core.items.as_slice(), &in_list, found)?;
    sources_inside(core.sources.as_slice(), around, found)?;
    let rows = inside(&*scope, true, &*around.outer)?;
    let in_where = (&*around).seeing(&rows, in_clause(false));
    condition_inside(&core.condition, &in_where, found)?;
    condition_inside(&core.having, &in_list, found)?;
    Ok(())
}

#[cycle(gathering)]
fn items_inside(items: &[SelectItem], here: &Here, found: &mut Gathered) -> Result<(), NoMemory>
    requires { IsSound here.now.catalog.now }
    ensures { OnOk result ((has_from : Bool) (scope : Sight)
        → Adds (held_items has_from scope (surroundings here.now)
        (map (item_of here.now.catalog.now) items.now)) found.old found.new) }
{
    for item in items {
        item_inside(item, here, found)?;
    }
    Ok(())
}

#[cycle(gathering)]
fn item_inside(item: &SelectItem, here: &Here, found: &mut Gathered) -> Result<(), NoMemory>
    requires { IsSound here.now.catalog.now }
    ensures { OnOk result ((has_from : Bool) (scope : Sight)
        → Adds (held_items has_from scope (surroundings here.now) (item_of here.now.catalog.now item.now
        ∷ [])) found.old found.new) }
{
    match item {
        SelectItem::Star { .. } => Ok(()),
        SelectItem::TableStar { .. } => Ok(()),
        SelectItem::Value { expr, .. } => {
            expression_inside(expr, here, found)?;
            Ok(())
        }
    }
}

#[cycle(gathering)]
fn condition_inside(
    tree: &Option<ExprTree>,
    here: &Here,
    found: &mut Gathered,
) -> Result<(), NoMemory>
    requires { IsSound here.now.catalog.now }
    ensures { OnOk result (Adds (held_optional (surroundings here.now)
        (option_map (part_of here.now.catalog.now) tree.now)) found.old found.new) }
{
    match tree {
        None => Ok(()),
        Some(tree) => {
            expression_inside(tree, here, found)?;
            Ok(())
        }
    }
}

#[cycle(gathering)]
fn sources_inside(trees: &[FromTree], around: &Around, found: &mut Gathered) -> Result<(), NoMemory>
    requires { IsSound around.now.catalog.now }
    ensures { OnOk result (Adds (held_from (from_all (around_of around.now).outer
        (map (from_of around.now.catalog.now) trees.now)) ∷ []) found.old found.new) }
{
    for tree in trees {
        from_inside(tree, around, found)?;
    }
    Ok(())
}

/// A source with its joins. Its items come in scope one after the other: no scope is copied for a join.
#[cycle(gathering)]
fn from_inside(tree: &FromTree, around: &Around, found: &mut Gathered) -> Result<(), NoMemory>
    requires { IsSound around.now.catalog.now }
    ensures { OnOk result ((names : Items (Items ℕ))
        → Adds (held_from ((from_of around.now.catalog.now tree.now).means (around_of around.now).outer names)
        ∷ []) found.old found.new) }
{
    let mut own = no_items(around.alloc);
    source_inside(&tree.first, &around.in_from(), found)?;
    let read = item_read(&tree.first, &around.in_from())?;
    put_read(around.alloc, &mut own, read)?;
    for step in tree.joins.as_slice() {
        join_inside(step, &mut own, around, found)?;
    }
    Ok(())
}

/// One more join of a source, whose items so far are in scope: its condition sees these and its own, and a lateral subquery
/// these alone.
#[cycle(gathering)]
fn join_inside(
    step: &JoinStep,
    own: &mut Scope,
    around: &Around,
    found: &mut Gathered,
) -> Result<(), NoMemory>
    requires { IsSound around.now.catalog.now }
    ensures { OnOk result (AddsJoin (around_of around.now).outer (join_of around.now.catalog.now step.now)
        own.old own.new found.old found.new) }
{
    if is_lateral(step.word) {
        return beside_inside(&step.item, own, around, found);
    }
    source_inside(&step.item, &around.in_from(), found)?;
    let read = item_read(&step.item, &around.in_from())?;
    put_read(around.alloc, own, read)?;
    on_inside(&step.condition, &*own, around, found)
}

/// An item whose subquery sees those in scope, to which it comes.
#[cycle(gathering)]
fn beside_inside(
    item: &FromItem,
    own: &mut Scope,
    around: &Around,
    found: &mut Gathered,
) -> Result<(), NoMemory>
    requires { IsSound around.now.catalog.now }
    ensures { OnOk result (AddsItem (around_beside (own.old ∷ (around_of around.now).outer))
        (from_item_of around.now.catalog.now item.now) own.old own.new found.old found.new) }
{
    let read = seeing_inside(item, &*own, around, found)?;
    put_read(around.alloc, own, read)
}

/// An item whose subquery sees this scope, and what it reads.
#[cycle(gathering)]
fn seeing_inside(
    item: &FromItem,
    own: &Scope,
    around: &Around,
    found: &mut Gathered,
) -> Result<Option<(Chars, List<Column>)>, NoMemory>
    requires { IsSound around.now.catalog.now }
    ensures adds { OnOk result ((names : Items (Items ℕ))
        → Adds (held_item ((from_item_of around.now.catalog.now item.now).means
        (around_beside (own.now ∷ (around_of around.now).outer)) names) ∷ []) found.old found.new) }
    ensures reads { IfOk result (λ read. (names : Items (Items ℕ))
        → IsReadAs ((from_item_of around.now.catalog.now item.now).means
        (around_beside (own.now ∷ (around_of around.now).outer)) names) read) }
{
    let scopes = inside(own, false, &*around.outer)?;
    let place = (&*around).lateral(&scopes);
    source_inside(item, &place, found)?;
    item_read(item, &place)
}

/// A condition of ON, which sees the items in scope.
#[cycle(gathering)]
fn on_inside(
    condition: &Option<ExprTree>,
    own: &Scope,
    around: &Around,
    found: &mut Gathered,
) -> Result<(), NoMemory>
    requires { IsSound around.now.catalog.now }
    ensures { OnOk result (Adds (held_optional (in_clause own.now (around_of around.now).outer false)
        (option_map (part_of around.now.catalog.now) condition.now)) found.old found.new) }
{
    let rows = inside(own, false, &*around.outer)?;
    let here = (&*around).seeing(&rows, in_clause(false));
    condition_inside(condition, &here, found)?;
    Ok(())
}

/// An item whose subquery stands there.
#[cycle(gathering)]
fn source_inside(item: &FromItem, around: &Around, found: &mut Gathered) -> Result<(), NoMemory>
    requires { IsSound around.now.catalog.now }
    ensures { OnOk result ((names : Items (Items ℕ))
        → Adds (held_item ((from_item_of around.now.catalog.now item.now).means (around_of around.now) names)
        ∷ []) found.old found.new) }
{
    match &item.source {
        FromSource::Named(name) => {
            name_inside(name, around, found)?;
            Ok(())
        }
        FromSource::Inner(query) => {
            query_inside(query.get(), around, found)?;
            Ok(())
        }
    }
}

#[cycle(gathering)]
fn sublink_inside(query: &QueryTree, here: &Here, found: &mut Gathered) -> Result<(), NoMemory>
    requires { IsSound here.now.catalog.now }
    ensures { OnOk result (Adds (held_query
        (query_means_at (query_of here.now.catalog.now query.now) (below (surroundings here.now)))
        ∷ []) found.old found.new) }
{
    query_inside(query, &here.below(), found)?;
    Ok(())
}

/// Only sublinks have a query inside; none stands in an argument of an aggregate or before the query of another.
#[cycle(gathering)]
fn expression_inside(tree: &ExprTree, here: &Here, found: &mut Gathered) -> Result<(), NoMemory>
    requires { IsSound here.now.catalog.now }
    ensures { OnOk result (Adds (held_at (surroundings here.now) (part_of here.now.catalog.now tree.now)
        ∷ []) found.old found.new) }
{
    match &tree.body {
        ExprBody::Null => Ok(()),
        ExprBody::NullOf(_) => Ok(()),
        ExprBody::Integer(_) => Ok(()),
        ExprBody::Text(_) => Ok(()),
        ExprBody::Truth(_) => Ok(()),
        ExprBody::Column(_) => Ok(()),
        ExprBody::Paren(part) => expression_inside(part.get(), here, found),
        ExprBody::Nots { part, .. } => expression_inside(part.get(), here, found),
        ExprBody::Signs { part, .. } => expression_inside(part.get(), here, found),
        ExprBody::Logic { parts, .. } => expressions_inside(parts.as_slice(), here, found),
        ExprBody::Chain { first, steps } => {
            expression_inside(first.get(), here, found)?;
            steps_inside(steps.as_slice(), here, found)
        }
        ExprBody::Compared { first, second, .. } => {
            expression_inside(first.get(), here, found)?;
            expression_inside(second.get(), here, found)
        }
        ExprBody::Like { text, pattern, .. } => {
            expression_inside(text.get(), here, found)?;
            expression_inside(pattern.get(), here, found)
        }
        ExprBody::Between {
            part,
            low,
            high,
            ..
        } => {
            expression_inside(part.get(), here, found)?;
            expression_inside(low.get(), here, found)?;
            expression_inside(high.get(), here, found)
        }
        ExprBody::InList { part, list, .. } => {
            expression_inside(part.get(), here, found)?;
            expressions_inside(list.as_slice(), here, found)
        }
        ExprBody::InQuery { query, .. } => sublink_inside(query.get(), here, found),
        ExprBody::Quantified { query, .. } => sublink_inside(query.get(), here, found),
        ExprBody::IsNull { part, .. } => expression_inside(part.get(), here, found),
        ExprBody::IsTruth { part, .. } => expression_inside(part.get(), here, found),
        ExprBody::IsDistinct { first, second, .. } => {
            expression_inside(first.get(), here, found)?;
            expression_inside(second.get(), here, found)
        }
        ExprBody::Case { arms, otherwise } => {
            arms_inside(arms.as_slice(), here, found)?;
            otherwise_inside(otherwise, here, found)
        }
        ExprBody::Coalesce(list) => expressions_inside(list.as_slice(), here, found),
        ExprBody::NullIf { first, second } => {
            expression_inside(first.get(), here, found)?;
            expression_inside(second.get(), here, found)
        }
        ExprBody::Aggregate { .. } => Ok(()),
        ExprBody::Exists(query) => sublink_inside(query.get(), here, found),
        ExprBody::Scalar(query) => sublink_inside(query.get(), here, found),
    }
}

#[cycle(gathering)]
fn expressions_inside(trees: &[ExprTree], here: &Here, found: &mut Gathered) -> Result<(), NoMemory>
    requires { IsSound here.now.catalog.now }
    ensures { OnOk result (Adds (map (held_at (surroundings here.now))
        (map (part_of here.now.catalog.now) trees.now)) found.old found.new) }
{
    for tree in trees {
        expression_inside(tree, here, found)?;
    }
    Ok(())
}

#[cycle(gathering)]
fn steps_inside(steps: &[ExprStep], here: &Here, found: &mut Gathered) -> Result<(), NoMemory>
    requires { IsSound here.now.catalog.now }
    ensures { OnOk result (Adds (map (held_step (surroundings here.now))
        (map (step_of here.now.catalog.now) steps.now)) found.old found.new) }
{
    for step in steps {
        expression_inside(&step.part, here, found)?;
    }
    Ok(())
}

#[cycle(gathering)]
fn arms_inside(arms: &[ArmTree], here: &Here, found: &mut Gathered) -> Result<(), NoMemory>
    requires { IsSound here.now.catalog.now }
    ensures { OnOk result (Adds (flat_map (held_arm (surroundings here.now))
        (map (arm_of here.now.catalog.now) arms.now)) found.old found.new) }
{
    for arm in arms {
        expression_inside(&arm.condition, here, found)?;
        expression_inside(&arm.value, here, found)?;
    }
    Ok(())
}

#[cycle(gathering)]
fn otherwise_inside(
    tree: &Option<Boxed<ExprTree>>,
    here: &Here,
    found: &mut Gathered,
) -> Result<(), NoMemory>
    requires { IsSound here.now.catalog.now }
    ensures { OnOk result (Adds (held_optional (surroundings here.now)
        (option_map (part_of here.now.catalog.now) tree.now)) found.old found.new) }
{
    match tree {
        None => Ok(()),
        Some(tree) => {
            expression_inside(tree.get(), here, found)?;
            Ok(())
        }
    }
}

/// The table of that name, or else the view with the names that it uses.
fn name_inside(name: &Name, around: &Around, found: &mut Gathered) -> Result<(), NoMemory>
    ensures { OnOk result (Adds (held_read (read_named around.now.catalog.now name.now)
        ∷ []) found.old found.new) }
{
    match around.catalog.table(&name.text) {
        Some(_) => {
            found.add_table(around.alloc, &name.text)?;
            Ok(())
        }
        None => match around.catalog.view(&name.text) {
            Some(view) => {
                found.add_view(around.alloc, &name.text, view)?;
                Ok(())
            }
            None => Ok(()),
        },
    }
}
