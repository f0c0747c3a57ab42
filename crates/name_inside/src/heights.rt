//! How high at least a query is made, read off its tree.
//!
//! It stands apart from what makes the query: what is higher than a query may be isn't made at all, however long its tree
//! goes on, so nothing goes through it or drops it by recursion.
//! One walk over the tree of a query. What stands in the tables and views that are read isn't looked at, and of the nodes of a
//! core only one is counted, so each answer is no more than the height.
ghost use Rattle.std.specs.Prelude.{◌≡◌, ◌≤◌, ◌<◌, ℕ, suc, max, Bool, List, [], ◌∷◌, map, flat_map, option_map};
ghost use Rattle.name_meaning.specs.Expressions.{arm_operands, else_operand, step_operand};
ghost use Rattle.name_meaning.specs.Froms.{FromMeant, from_all, join_item, joined_item};
ghost use Rattle.name_meaning.specs.Meanings.{Around, QueryMeant, Surroundings, means_at, query_means_at};
ghost use Rattle.name_meaning.specs.Operands.{operand};
ghost use Rattle.name_meaning.specs.Queries.{set_chain};
ghost use Rattle.name_meaning.specs.Trees.{arm_of, core_of, from_item_of, from_of, item_of, join_of, part_of, query_of, set_of_tree, set_step_of, step_of};
ghost use Rattle.name_meaning.specs.declared.need.Need.{Need as Needs};
ghost use Rattle.name_meaning.specs.declared.scope.Scope.{Scope};
ghost use Rattle.name_made_parts.specs.Cored.{items_meant};
ghost use Rattle.perm_catalog.specs.Contents.{Contents};
ghost use Rattle.perm_catalog.specs.Sound.{IsSound};
ghost use Rattle.name_inside.specs.heights.Least.{above, above_both, arm_least, chain_least, core_least, expr_least, from_least, highest, if_there, item_least, join_least, least_height, listed_least, operand_least, set_least, sources_least, step_least};
ghost use Rattle.name_inside.specs.heights.High.{FromHigh, ItemHigh, ListHigh, OperandsHigh, OptionalHigh, QueryHigh, SelectHigh, SubsHigh};

use name_seen_parts::is_lateral;
use perm_values::Boxed;
use sql_tree::{
    ArmTree, Core, ExprBody, ExprStep, ExprTree, FromItem, FromSource, FromTree, JoinStep,
    QueryTree, SelectItem, SetStep, SetTree,
};

/// More than any limit: nothing is counted behind it.
const ENOUGH: u64 = 1024;

/// One more than what a node stands over.
fn above(height: u64) -> u64
    ensures is { result ≡ above height }
    ensures high { result ≤ suc height }
{
    if height < ENOUGH {
        return height + 1;
    }
    height
}

/// How high what is before a comma is with what is behind it, of as many parts before.
fn beside(before: usize, left: u64, right: u64) -> u64
    ensures first { before ≡ 0 → result ≡ right }
    ensures behind { 0 < before → result ≡ above_both left right }
    ensures more { result ≤ suc (max left right) }
{
    if before == 0 {
        return right;
    }
    above(left.max(right))
}

/// How high at least what the query is made to is, wherever it stands and breaks nothing. It takes no memory.
#[cycle(height)]
pub fn query_height(tree: &QueryTree) -> u64
    ensures is { result ≡ least_height tree.now }
    ensures high { (c : Contents) (around : Around) → IsSound c
        → QueryHigh result (query_means_at (query_of c tree.now) around) }
{
    set_height(&tree.body)
}

#[cycle(height)]
fn set_height(tree: &SetTree) -> u64
    ensures is { result ≡ set_least tree.now }
    ensures high { (c : Contents) (around : Around) → IsSound c
        → QueryHigh result ((set_of_tree c tree.now).means around) }
{
    match tree {
        SetTree::Core(core) => core_height(core.get()),
        SetTree::Paren(query) => query_height(query.get()),
        SetTree::Chain { first, steps } => {
            let before = set_height(first.get());
            chain_height(steps.as_slice(), before)
        }
    }
}

/// Set operations on what is so high.
#[cycle(height)]
fn chain_height(steps: &[SetStep], before: u64) -> u64
    ensures is { result ≡ chain_least before (map operand_least steps.now) }
    ensures high { (c : Contents) (around : Around) (left : QueryMeant) → IsSound c → QueryHigh before left
        → QueryHigh result (set_chain around left (map (set_step_of c) steps.now)) }
{
    let mut height = before;
    for step in steps {
        height = above(height.max(set_height(&step.operand)));
    }
    height
}

#[cycle(height)]
fn core_height(core: &Core) -> u64
    ensures is { result ≡ core_least core.now }
    ensures high { (c : Contents) (around : Around) → IsSound c
        → QueryHigh result ((core_of c core.now).means around) }
{
    let input = sources_height(core.sources.as_slice());
    let kept = condition_height(&core.condition);
    let chosen = condition_height(&core.having);
    let listed = items_height(core.items.as_slice());
    above(input.max(kept).max(chosen).max(listed))
}

#[cycle(height)]
fn sources_height(sources: &[FromTree]) -> u64
    ensures is { result ≡ sources_least (map from_least sources.now) }
    ensures high { (c : Contents) (outer : List Scope) → IsSound c
        → FromHigh result (from_all outer (map (from_of c) sources.now)) }
{
    let mut height = 0;
    for place in 0..sources.len() {
        height = beside(place, height, source_height(&sources[place]));
    }
    height
}

#[cycle(height)]
fn source_height(tree: &FromTree) -> u64
    ensures is { result ≡ from_least tree.now }
    ensures high { (c : Contents) (outer : List Scope) (earlier : List (List ℕ)) → IsSound c
        → FromHigh result ((from_of c tree.now).means outer earlier) }
{
    let mut height = item_height(&tree.first);
    for step in tree.joins.as_slice() {
        height = join_height(step, height);
    }
    height
}

/// One more join of what is so high.
#[cycle(height)]
fn join_height(step: &JoinStep, before: u64) -> u64
    ensures is { result ≡ above_both before (join_least step.now) }
    ensures high { (c : Contents) (outer : List Scope) (left : FromMeant) → IsSound c → FromHigh before left
        → FromHigh result (join_item outer left (join_of c step.now)
        (joined_item outer left (join_of c step.now))) }
{
    let right = item_height(&step.item);
    if is_lateral(step.word) {
        return above(before.max(right));
    }
    let on = condition_height(&step.condition);
    above(before.max(right).max(on))
}

#[cycle(height)]
fn item_height(item: &FromItem) -> u64
    ensures is { result ≡ item_least item.now }
    ensures high { (c : Contents) (around : Around) (earlier : List (List ℕ)) → IsSound c
        → ItemHigh result ((from_item_of c item.now).means around earlier) }
{
    match &item.source {
        FromSource::Named(_) => 0,
        FromSource::Inner(query) => query_height(query.get()),
    }
}

/// The highest query of the sublinks of a condition.
#[cycle(height)]
fn condition_height(condition: &Option<ExprTree>) -> u64
    ensures is { result ≡ if_there (option_map expr_least condition.now) }
    ensures high { (c : Contents) → IsSound c
        → OptionalHigh result (option_map (part_of c) condition.now) }
{
    match condition {
        None => 0,
        Some(tree) => expression_height(tree),
    }
}

/// The highest query of the sublinks of a SELECT list.
#[cycle(height)]
fn items_height(items: &[SelectItem]) -> u64
    ensures is { result ≡ highest (map listed_least items.now) }
    ensures high { (c : Contents) (has_from : Bool) (scope : Scope) (here : Surroundings) → IsSound c
        → ListHigh result (items_meant has_from scope here (map (item_of c) items.now)) }
{
    let mut height: u64 = 0;
    for item in items {
        height = height.max(listed_height(item));
    }
    height
}

#[cycle(height)]
fn listed_height(item: &SelectItem) -> u64
    ensures is { result ≡ listed_least item.now }
    ensures high { (c : Contents) (has_from : Bool) (scope : Scope) (here : Surroundings) → IsSound c
        → SelectHigh result ((item_of c item.now).means has_from scope here) }
{
    match item {
        SelectItem::Star { .. } => 0,
        SelectItem::TableStar { .. } => 0,
        SelectItem::Value { expr, .. } => expression_height(expr),
    }
}

/// The highest query of the sublinks of an expression.
#[cycle(height)]
fn expression_height(tree: &ExprTree) -> u64
    ensures is { result ≡ expr_least tree.now }
    ensures high { (c : Contents) (here : Surroundings) → IsSound c
        → SubsHigh result (means_at (part_of c tree.now) here) }
{
    match &tree.body {
        ExprBody::Null => 0,
        ExprBody::NullOf(_) => 0,
        ExprBody::Integer(_) => 0,
        ExprBody::Text(_) => 0,
        ExprBody::Truth(_) => 0,
        ExprBody::Column(_) => 0,
        ExprBody::Paren(part) => expression_height(part.get()),
        ExprBody::Nots { part, .. } => expression_height(part.get()),
        ExprBody::Signs { part, .. } => expression_height(part.get()),
        ExprBody::Logic { parts, .. } => expressions_height(parts.as_slice()),
        ExprBody::Chain { first, steps } => {
            let front = expression_height(first.get());
            front.max(steps_height(steps.as_slice()))
        }
        ExprBody::Compared { first, second, .. } => {
            let front = expression_height(first.get());
            front.max(expression_height(second.get()))
        }
        ExprBody::Like { text, pattern, .. } => {
            let front = expression_height(text.get());
            front.max(expression_height(pattern.get()))
        }
        ExprBody::Between {
            part,
            low,
            high,
            ..
        } => {
            let front = expression_height(part.get());
            let lowest = expression_height(low.get());
            front.max(lowest.max(expression_height(high.get())))
        }
        ExprBody::InList { part, list, .. } => {
            let front = expression_height(part.get());
            front.max(expressions_height(list.as_slice()))
        }
        ExprBody::InQuery { query, .. } => query_height(query.get()),
        ExprBody::Quantified { query, .. } => query_height(query.get()),
        ExprBody::IsNull { part, .. } => expression_height(part.get()),
        ExprBody::IsTruth { part, .. } => expression_height(part.get()),
        ExprBody::IsDistinct { first, second, .. } => {
            let front = expression_height(first.get());
            front.max(expression_height(second.get()))
        }
        ExprBody::Case { arms, otherwise } => {
            let front = arms_height(arms.as_slice());
            front.max(otherwise_height(otherwise))
        }
        ExprBody::Coalesce(list) => expressions_height(list.as_slice()),
        ExprBody::NullIf { first, second } => {
            let front = expression_height(first.get());
            front.max(expression_height(second.get()))
        }
        ExprBody::Aggregate { .. } => 0,
        ExprBody::Exists(query) => query_height(query.get()),
        ExprBody::Scalar(query) => query_height(query.get()),
    }
}

#[cycle(height)]
fn expressions_height(trees: &[ExprTree]) -> u64
    ensures is { result ≡ highest (map expr_least trees.now) }
    ensures high { (c : Contents) (here : Surroundings) (need : Needs) → IsSound c
        → OperandsHigh result (map (operand here need) (map (part_of c) trees.now)) }
{
    let mut height: u64 = 0;
    for tree in trees {
        height = height.max(expression_height(tree));
    }
    height
}

#[cycle(height)]
fn steps_height(steps: &[ExprStep]) -> u64
    ensures is { result ≡ highest (map step_least steps.now) }
    ensures high { (c : Contents) (here : Surroundings) → IsSound c
        → OperandsHigh result (map (step_operand here) (map (step_of c) steps.now)) }
{
    let mut height: u64 = 0;
    for step in steps {
        height = height.max(expression_height(&step.part));
    }
    height
}

#[cycle(height)]
fn arms_height(arms: &[ArmTree]) -> u64
    ensures is { result ≡ highest (map arm_least arms.now) }
    ensures high { (c : Contents) (here : Surroundings) → IsSound c
        → OperandsHigh result (flat_map (arm_operands here) (map (arm_of c) arms.now)) }
{
    let mut height: u64 = 0;
    for arm in arms {
        let front = expression_height(&arm.condition);
        let both = front.max(expression_height(&arm.value));
        height = height.max(both);
    }
    height
}

#[cycle(height)]
fn otherwise_height(tree: &Option<Boxed<ExprTree>>) -> u64
    ensures is { result ≡ if_there (option_map expr_least tree.now) }
    ensures high { (c : Contents) (here : Surroundings) → IsSound c
        → OperandsHigh result (else_operand here (option_map (part_of c) tree.now) ∷ []) }
{
    match tree {
        None => 0,
        Some(tree) => expression_height(tree.get()),
    }
}
