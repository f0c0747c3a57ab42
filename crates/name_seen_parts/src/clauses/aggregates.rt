//! Whether an expression holds an aggregate of its own core.
ghost use Rattle.std.specs.Prelude.{◌≡◌, map, flat_map};
ghost use Rattle.std.specs.List.{list_any};
ghost use Rattle.name_meaning.specs.Expressions.{arm_parts};
ghost use Rattle.name_meaning.specs.Meanings.{Part};
ghost use Rattle.name_meaning.specs.Trees.{part_of, step_of, arm_of};
ghost use Rattle.perm_catalog.specs.Contents.{Contents};
ghost use Rattle.name_seen_parts.specs.Aggregates.{is_aggregating, otherwise_aggregates, step_aggregates};

use perm_values::Boxed;
use sql_tree::{ArmTree, ExprBody, ExprStep, ExprTree};

/// Whether an aggregate of its own core stands in an expression, and not in a sublink of it.
#[cycle(aggregates)]
pub fn has_aggregate(tree: &ExprTree) -> bool
    ensures { (c : Contents) → result ≡ is_aggregating (part_of c tree.now) }
{
    match &tree.body {
        ExprBody::Null => false,
        ExprBody::NullOf(_) => false,
        ExprBody::Integer(_) => false,
        ExprBody::Text(_) => false,
        ExprBody::Truth(_) => false,
        ExprBody::Column(_) => false,
        ExprBody::Paren(part) => has_aggregate(part.get()),
        ExprBody::Nots { part, .. } => has_aggregate(part.get()),
        ExprBody::Signs { part, .. } => has_aggregate(part.get()),
        ExprBody::Logic { parts, .. } => any_aggregates(parts.as_slice()),
        ExprBody::Chain { first, steps } => has_aggregate(first.get())
            | any_step_aggregates(steps.as_slice()),
        ExprBody::Compared { first, second, .. } => has_aggregate(first.get())
            | has_aggregate(second.get()),
        ExprBody::Like { text, pattern, .. } => has_aggregate(text.get())
            | has_aggregate(pattern.get()),
        ExprBody::Between {
            part,
            low,
            high,
            ..
        } => has_aggregate(part.get()) | has_aggregate(low.get()) | has_aggregate(high.get()),
        ExprBody::InList { part, list, .. } => has_aggregate(part.get())
            | any_aggregates(list.as_slice()),
        ExprBody::InQuery { part, .. } => has_aggregate(part.get()),
        ExprBody::Quantified { part, .. } => has_aggregate(part.get()),
        ExprBody::IsNull { part, .. } => has_aggregate(part.get()),
        ExprBody::IsTruth { part, .. } => has_aggregate(part.get()),
        ExprBody::IsDistinct { first, second, .. } => has_aggregate(first.get())
            | has_aggregate(second.get()),
        ExprBody::Case { arms, otherwise } => {
            any_arm_aggregates(arms.as_slice()) | otherwise_aggregates(otherwise)
        }
        ExprBody::Coalesce(list) => any_aggregates(list.as_slice()),
        ExprBody::NullIf { first, second } => has_aggregate(first.get())
            | has_aggregate(second.get()),
        ExprBody::Aggregate { .. } => true,
        ExprBody::Exists(_) => false,
        ExprBody::Scalar(_) => false,
    }
}

#[cycle(aggregates)]
fn otherwise_aggregates(tree: &Option<Boxed<ExprTree>>) -> bool
    ensures { (c : Contents) → result ≡ otherwise_aggregates c tree.now }
{
    match tree {
        None => false,
        Some(tree) => has_aggregate(tree.get()),
    }
}

#[cycle(aggregates)]
fn any_aggregates(trees: &[ExprTree]) -> bool
    ensures { (c : Contents) → result ≡ list_any is_aggregating (map (part_of c) trees.now) }
{
    let mut found = false;
    for tree in trees {
        found |= has_aggregate(tree);
    }
    found
}

#[cycle(aggregates)]
fn any_step_aggregates(steps: &[ExprStep]) -> bool
    ensures { (c : Contents) → result ≡ list_any step_aggregates (map (step_of c) steps.now) }
{
    let mut found = false;
    for step in steps {
        found |= has_aggregate(&step.part);
    }
    found
}

#[cycle(aggregates)]
fn any_arm_aggregates(arms: &[ArmTree]) -> bool
    ensures { (c : Contents) → result ≡ list_any is_aggregating
        (flat_map arm_parts (map (arm_of c) arms.now)) }
{
    let mut found = false;
    for arm in arms {
        found |= has_aggregate(&arm.condition) | has_aggregate(&arm.value);
    }
    found
}
