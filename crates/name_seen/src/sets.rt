//! The columns of trees of set operations.
ghost use Rattle.std.specs.Prelude.{map};
ghost use Rattle.perm_catalog.specs.Sound.{IsSound};
ghost use Rattle.name_meaning.specs.Meanings.{QueryMeant};
ghost use Rattle.name_meaning.specs.Queries.{set_chain, set_joined, may_not_ask};
ghost use Rattle.name_meaning.specs.Trees.{set_of_tree, set_step_of};
ghost use Rattle.name_seen_parts.specs.Standing.{around_of};
ghost use Rattle.name_seen_cores.specs.from.Queried.{ColumnsSeen};
ghost use Rattle.name_seen_cores.specs.declared.from.facts.Facts.{Facts as Gathered};

use crate::cores::core_seen;
use crate::queries::query_seen;
use name_seen_cores::{Facts, add_operand, add_shown};
use name_seen_parts::{Around, Refusal, ShownColumn};
use perm_values::List;
use sql_tree::{SetStep, SetTree};

/// The columns of a tree of set operations, or its first break. Its facts come behind those so far.
#[cycle(seen)]
pub fn set_seen(
    tree: &SetTree,
    around: &Around,
    facts: &mut Facts,
) -> Result<List<ShownColumn>, Refusal>
    requires { IsSound around.now.catalog.now }
    ensures { ColumnsSeen ((set_of_tree around.now.catalog.now tree.now).means (around_of around.now))
        facts.old facts.new result }
{
    match tree {
        SetTree::Core(core) => core_seen(core.get(), around, facts),
        SetTree::Paren(query) => match query_seen(query.get(), &around.operand()) {
            Ok(shown) => add_shown(shown, facts),
            Err(refusal) => Err(refusal),
        },
        SetTree::Chain { first, steps } => {
            let first = set_seen(first.get(), around, facts);
            operands_seen(steps.as_slice(), first, around, facts)
        }
    }
}

/// The columns of set operations on what stands before them, which was answered or refused.
#[cycle(seen)]
fn operands_seen(
    steps: &[SetStep],
    first: Result<List<ShownColumn>, Refusal>,
    around: &Around,
    facts: &mut Facts,
) -> Result<List<ShownColumn>, Refusal>
    requires { IsSound around.now.catalog.now }
    ensures { (left : QueryMeant) (before : Gathered) → ColumnsSeen left before facts.old first
        → ColumnsSeen (set_chain (around_of around.now) left
        (map (set_step_of around.now.catalog.now) steps.now)) before facts.new result }
{
    let mut seen = first;
    for step in steps {
        seen = operand_seen(step, seen, around, facts);
    }
    seen
}

/// The columns so far with one more operand.
#[cycle(seen)]
fn operand_seen(
    step: &SetStep,
    so_far: Result<List<ShownColumn>, Refusal>,
    around: &Around,
    facts: &mut Facts,
) -> Result<List<ShownColumn>, Refusal>
    requires { IsSound around.now.catalog.now }
    ensures { (left : QueryMeant) (before : Gathered) → ColumnsSeen left before facts.old so_far
        → ColumnsSeen (set_joined left (set_step_of around.now.catalog.now step.now)
        ((set_step_of around.now.catalog.now step.now).operand.means (may_not_ask (around_of around.now))))
        before facts.new result }
{
    match so_far {
        Ok(columns) => {
            let operand = set_seen(&step.operand, &around.operand(), facts);
            add_operand(columns, step.at, operand)
        }
        Err(refusal) => Err(refusal),
    }
}
