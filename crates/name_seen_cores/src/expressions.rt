//! The kinds of expressions over operands that were answered or refused.
ghost use Rattle.std.specs.Prelude.{◌≡◌, List as Items, map};
ghost use Rattle.perm_catalog.specs.Contents.{Contents};
ghost use Rattle.name_meaning.specs.Expressions.{first_need, chain_gives};
ghost use Rattle.name_meaning.specs.Meanings.{Meant};
ghost use Rattle.name_meaning.specs.Scopes.{look_up, ungrouped};
ghost use Rattle.name_meaning.specs.Sublinks.{aggregated, column_meant, in_argument};
ghost use Rattle.name_meaning.specs.Trees.{step_of};
ghost use Rattle.name_meaning.specs.declared.scope.Scope.{Scope};
ghost use Rattle.name_seen_parts.specs.Named.{scopes_of};
ghost use Rattle.name_seen_parts.specs.Seen.{seen};
ghost use Rattle.name_seen_parts.specs.Standing.{standing_in, surroundings};
ghost use Rattle.name_seen_parts.specs.Told.{Tells};
ghost use Rattle.name_seen_cores.specs.Expressed.{answered, kind_over, operands_with};

use name_meaning::{Break, Gives, Need};
use name_seen_parts::{
    Here, Operands, Refusal, Standing, aggregated_kind, column_kind, gives_of, look_up, need_of,
};
use null_logic::Operator;
use perm_values::Kind;
use sql_tree::{AggWord, ColRef, ExprStep};

/// The operands with one more, whose kind was answered or refused.
pub fn operands_with(
    operands: Operands,
    need: Need,
    at: usize,
    kind: Result<Option<Kind>, Refusal>,
) -> Result<Operands, Refusal>
    ensures { result ≡ operands_with operands need at kind }
{
    match kind {
        Ok(kind) => Ok(operands.with(need, at, kind)),
        Err(refusal) => Err(refusal),
    }
}

/// The kind of what is made of operands that were answered or refused, or that their kinds differ.
pub fn kind_over(gives: Gives, operands: Result<Operands, Refusal>) -> Result<Option<Kind>, Refusal>
    ensures { result ≡ kind_over gives operands }
{
    match operands {
        Ok(operands) => answered(operands.whole(gives)),
        Err(refusal) => Err(refusal),
    }
}

/// A kind, or the first break, as an answer.
pub fn answered(kind: Result<Option<Kind>, Break>) -> Result<Option<Kind>, Refusal>
    ensures { result ≡ answered kind }
{
    match kind {
        Ok(kind) => Ok(kind),
        Err(first) => Err(Refusal::Break(first)),
    }
}

/// The kind of the column that a reference means, or why it means none.
pub fn column(reference: &ColRef, here: &Here) -> Result<Option<Kind>, Refusal>
    ensures { result
        ≡ answered (seen (column_meant (surroundings here.now) reference.now.at
        (look_up 0 (scopes_of here.now.scopes.now) reference.now))) }
{
    let found = look_up(&*here.scopes, reference);
    answered(column_kind(here.standing.argument, reference.at, found))
}

/// What the first step of a chain needs of the operand before it.
pub fn first_need(steps: &[ExprStep]) -> Need
    ensures { (c : Contents) → result ≡ first_need (map (step_of c) steps.now) }
{
    match steps.first() {
        None => Need::Free,
        Some(step) => need_of(Operator::Arith(step.op), false),
    }
}

/// What a chain of these steps gives.
pub fn chain_gives(steps: &[ExprStep]) -> Gives
    ensures { (c : Contents) → result ≡ chain_gives (map (step_of c) steps.now) }
{
    match steps.first() {
        None => Gives::Common,
        Some(step) => gives_of(Operator::Arith(step.op), false),
    }
}

/// How the argument of an aggregate stands.
pub fn in_argument(standing: Standing) -> Standing
    ensures { (scopes : Items Scope) → standing_in (ungrouped scopes) result
        ≡ in_argument (standing_in scopes standing) }
{
    Standing {
        aggregates: false,
        sublinks: false,
        argument: true,
        ..standing
    }
}

/// The kind of an aggregate of an argument at this offset, whose kind was answered or refused.
pub fn aggregated(
    here: &Here,
    at: usize,
    word: AggWord,
    argument_at: usize,
    kind: Result<Option<Kind>, Refusal>,
) -> Result<Option<Kind>, Refusal>
    ensures { (argument : Meant) → Tells (seen argument) kind →
        Tells (seen (aggregated (surroundings here.now) at word argument_at argument)) result }
{
    match kind {
        Ok(kind) => {
            let allowed = here.standing.aggregates;
            answered(aggregated_kind(allowed, at, word, argument_at, kind))
        }
        Err(refusal) => Err(refusal),
    }
}
