//! The kinds of expressions where they stand.
ghost use Rattle.std.specs.Prelude.{[], ◌∷◌, map, flat_map};
ghost use Rattle.perm_catalog.specs.Sound.{IsSound};
ghost use Rattle.name_meaning.specs.Expressions.{arm_operands, chain_gives, else_operand, step_operand};
ghost use Rattle.name_meaning.specs.Meanings.{means_at, query_means_at};
ghost use Rattle.name_meaning.specs.Operands.{operand};
ghost use Rattle.name_meaning.specs.Sublinks.{aggregate_meant, around_of, in_tested};
ghost use Rattle.name_meaning.specs.Trees.{part_of, step_of, arm_of, query_of};
ghost use Rattle.name_meaning.specs.declared.need.Gives.TheVariants.{Common as common};
ghost use Rattle.name_seen_parts.specs.Seen.{seen};
ghost use Rattle.name_seen_parts.specs.Standing.{surroundings};
ghost use Rattle.name_seen_cores.specs.Inner.{InnerLooked};
ghost use Rattle.name_seen_parts.specs.Told.{Tells};
ghost use Rattle.name_seen_cores.specs.Behind.{optional_part};
ghost use Rattle.name_seen_cores.specs.Expressed.{ExpressionSeen, OperandsBehind};
ghost use Rattle.name_seen.specs.Nodes.{NodeBehind};

use crate::queries::query_seen;
use name_meaning::{Break, Gives, Need, Rule};
use name_seen_cores::{
    Facts, InnerColumns, add_inner, aggregated, answered, chain_gives, column, exists_over,
    first_need, in_argument, in_tested, kind_over, operands_with, scalar_over, tested_over,
};
use name_seen_parts::{Here, Operands, Refusal, count_kind, gives_of, need_of, ungrouped};
use null_logic::Operator;
use perm_values::{Boxed, Kind};
use sql_tree::{AggWord, ArmTree, ExprBody, ExprStep, ExprTree, QueryTree};

/// The kind of an expression where it stands, none where it may be any, or its first break. The facts of its sublinks
/// come behind those so far.
#[cycle(seen)]
pub fn expression_seen(
    tree: &ExprTree,
    here: &Here,
    facts: &mut Facts,
) -> Result<Option<Kind>, Refusal>
    requires { IsSound here.now.catalog.now }
    ensures { ExpressionSeen (means_at (part_of here.now.catalog.now tree.now) (surroundings here.now))
        facts.old facts.new result }
{
    let none = Ok(Operands::none());
    match &tree.body {
        ExprBody::Null => Ok(None),
        ExprBody::NullOf(kind) => Ok(Some(*kind)),
        ExprBody::Integer(_) => Ok(Some(Kind::Integer)),
        ExprBody::Text(_) => Ok(Some(Kind::Text)),
        ExprBody::Truth(_) => Ok(Some(Kind::Boolean)),
        ExprBody::Column(reference) => column(reference, here),
        ExprBody::Paren(part) => expression_seen(part.get(), here, facts),
        ExprBody::Nots { part, .. } => {
            let need = need_of(Operator::Not, true);
            let gives = gives_of(Operator::Not, true);
            over_last(part.get(), need, gives, none, here, facts)
        }
        ExprBody::Signs { part, .. } => {
            let need = need_of(Operator::Negate, true);
            let gives = gives_of(Operator::Negate, true);
            over_last(part.get(), need, gives, none, here, facts)
        }
        ExprBody::Logic { op, parts } => {
            let need = need_of(*op, false);
            let gives = gives_of(*op, false);
            over_rest(parts.as_slice(), need, gives, none, here, facts)
        }
        ExprBody::Chain { first, steps } => {
            let need = first_need(steps.as_slice());
            let seen = operand(first.get(), need, none, here, facts);
            over_steps(steps.as_slice(), seen, here, facts)
        }
        ExprBody::Compared { op, first, second } => {
            let need = need_of(Operator::Compare(*op), false);
            let gives = gives_of(Operator::Compare(*op), false);
            let seen = operand(first.get(), need, none, here, facts);
            over_last(second.get(), need, gives, seen, here, facts)
        }
        ExprBody::Like { text, pattern, .. } => {
            let need = need_of(Operator::Like, false);
            let gives = gives_of(Operator::Like, false);
            let seen = operand(text.get(), need, none, here, facts);
            over_last(pattern.get(), need, gives, seen, here, facts)
        }
        ExprBody::Between {
            part,
            low,
            high,
            ..
        } => {
            let need = need_of(Operator::Between, false);
            let gives = gives_of(Operator::Between, false);
            let seen = operand(part.get(), need, none, here, facts);
            let seen = operand(low.get(), need, seen, here, facts);
            over_last(high.get(), need, gives, seen, here, facts)
        }
        ExprBody::InList { part, list, .. } => {
            let need = need_of(Operator::InList, false);
            let gives = gives_of(Operator::InList, false);
            let seen = operand(part.get(), need, none, here, facts);
            over_rest(list.as_slice(), need, gives, seen, here, facts)
        }
        ExprBody::InQuery { part, query, .. } => {
            let tested = tested_kind(part.get(), here);
            let inner = inner_seen(query.get(), tree.at, here, facts);
            tested_over(tested, query.get().at, inner)
        }
        ExprBody::Quantified { part, query, .. } => {
            let tested = tested_kind(part.get(), here);
            let inner = inner_seen(query.get(), tree.at, here, facts);
            tested_over(tested, query.get().at, inner)
        }
        ExprBody::IsNull { part, .. } => {
            let gives = Gives::Always(Kind::Boolean);
            over_last(part.get(), Need::Free, gives, none, here, facts)
        }
        ExprBody::IsTruth { part, .. } => {
            let need = Need::OfKind(Kind::Boolean);
            let gives = Gives::Always(Kind::Boolean);
            over_last(part.get(), need, gives, none, here, facts)
        }
        ExprBody::IsDistinct { first, second, .. } => {
            let gives = Gives::Always(Kind::Boolean);
            let seen = operand(first.get(), Need::Alike, none, here, facts);
            over_last(second.get(), Need::Alike, gives, seen, here, facts)
        }
        ExprBody::Case { arms, otherwise } => {
            let seen = operands_of_arms(arms.as_slice(), none, here, facts);
            over_else(otherwise, seen, here, facts)
        }
        ExprBody::Coalesce(list) => {
            let need = Need::Alike;
            over_rest(list.as_slice(), need, Gives::Common, none, here, facts)
        }
        ExprBody::NullIf { first, second } => {
            let seen = operand(first.get(), Need::Alike, none, here, facts);
            over_last(second.get(), Need::Alike, Gives::Common, seen, here, facts)
        }
        ExprBody::Aggregate { function, argument } => {
            aggregate_seen(*function, argument, tree.at, here)
        }
        ExprBody::Exists(query) => { exists_over(inner_seen(query.get(), tree.at, here, facts)) }
        ExprBody::Scalar(query) => {
            let inner = inner_seen(query.get(), tree.at, here, facts);
            scalar_over(query.get().at, inner)
        }
    }
}

/// The kind of a node whose last operand this is, behind those so far, which were answered or refused.
#[cycle(seen)]
fn over_last(
    tree: &ExprTree,
    need: Need,
    gives: Gives,
    so_far: Result<Operands, Refusal>,
    here: &Here,
    facts: &mut Facts,
) -> Result<Option<Kind>, Refusal>
    requires { IsSound here.now.catalog.now }
    ensures { NodeBehind gives (operand (surroundings here.now) need (part_of here.now.catalog.now tree.now)
        ∷ []) so_far facts.old facts.new result }
{
    let seen = operand(tree, need, so_far, here, facts);
    kind_over(gives, seen)
}

/// The kind of a node whose last operands these are, of one need, behind those so far.
#[cycle(seen)]
fn over_rest(
    trees: &[ExprTree],
    need: Need,
    gives: Gives,
    so_far: Result<Operands, Refusal>,
    here: &Here,
    facts: &mut Facts,
) -> Result<Option<Kind>, Refusal>
    requires { IsSound here.now.catalog.now }
    ensures { NodeBehind gives (map (operand (surroundings here.now) need)
        (map (part_of here.now.catalog.now) trees.now)) so_far facts.old facts.new result }
{
    let seen = operands(trees, need, so_far, here, facts);
    kind_over(gives, seen)
}

/// The kind of a chain of these steps, behind its operand so far.
#[cycle(seen)]
fn over_steps(
    steps: &[ExprStep],
    so_far: Result<Operands, Refusal>,
    here: &Here,
    facts: &mut Facts,
) -> Result<Option<Kind>, Refusal>
    requires { IsSound here.now.catalog.now }
    ensures { NodeBehind (chain_gives (map (step_of here.now.catalog.now) steps.now))
        (map (step_operand (surroundings here.now)) (map (step_of here.now.catalog.now) steps.now))
        so_far facts.old facts.new result }
{
    let seen = operands_of_steps(steps, so_far, here, facts);
    kind_over(chain_gives(steps), seen)
}

/// The kind of a CASE with this ELSE, if it has one, behind the operands of its arms.
#[cycle(seen)]
fn over_else(
    otherwise: &Option<Boxed<ExprTree>>,
    so_far: Result<Operands, Refusal>,
    here: &Here,
    facts: &mut Facts,
) -> Result<Option<Kind>, Refusal>
    requires { IsSound here.now.catalog.now }
    ensures { NodeBehind common (else_operand (surroundings here.now)
        (optional_part here.now.catalog.now otherwise.now) ∷ []) so_far facts.old facts.new result }
{
    match otherwise {
        None => kind_over(Gives::Common, so_far),
        Some(tree) => over_last(tree.get(), Need::Alike, Gives::Common, so_far, here, facts),
    }
}

/// The kind of an aggregate at this offset: of rows, or of its argument.
#[cycle(seen)]
fn aggregate_seen(
    function: AggWord,
    argument: &Option<Boxed<ExprTree>>,
    at: usize,
    here: &Here,
) -> Result<Option<Kind>, Refusal>
    requires { IsSound here.now.catalog.now }
    ensures { Tells (seen (aggregate_meant (surroundings here.now) at function
        (optional_part here.now.catalog.now argument.now))) result }
{
    match argument {
        None => answered(count_kind(here.standing.aggregates, at, function)),
        Some(argument) => {
            let scopes = ungrouped(&*here.scopes);
            let place = (&*here).seeing(&scopes, in_argument(here.standing));
            let kind = kind_of(argument.get(), &place);
            aggregated(here, at, function, argument.get().at, kind)
        }
    }
}

/// The kind of an expression whose sublinks are of no account, or its first break.
#[cycle(seen)]
pub fn kind_of(tree: &ExprTree, here: &Here) -> Result<Option<Kind>, Refusal>
    requires { IsSound here.now.catalog.now }
    ensures { Tells (seen (means_at (part_of here.now.catalog.now tree.now) (surroundings here.now))) result }
{
    let mut facts = Facts::none(here.alloc);
    expression_seen(tree, here, &mut facts)
}

/// The kind of the left operand of a sublink, in which no sublink stands.
#[cycle(seen)]
fn tested_kind(tree: &ExprTree, here: &Here) -> Result<Option<Kind>, Refusal>
    requires { IsSound here.now.catalog.now }
    ensures { Tells (seen (means_at (part_of here.now.catalog.now tree.now)
        (in_tested (surroundings here.now)))) result }
{
    let place = (&*here).seeing(&*here.scopes, in_tested(here.standing));
    kind_of(tree, &place)
}

/// The columns of the query of a sublink at this offset, or that no sublink stands here. Its facts come behind those so
/// far.
#[cycle(seen)]
#[tactic(auto, using(name_seen_cores::proofs::Sublinked::looked_not))]
fn inner_seen(
    query: &QueryTree,
    at: usize,
    here: &Here,
    facts: &mut Facts,
) -> Result<InnerColumns, Refusal>
    requires { IsSound here.now.catalog.now }
    ensures { InnerLooked here.now.standing.sublinks
        (query_means_at (query_of here.now.catalog.now query.now) (around_of (surroundings here.now))) at
        facts.old facts.new result }
{
    if !here.standing.sublinks {
        return Err(Refusal::Break(Break {
            rule: Rule::MisplacedSublink,
            at,
        }));
    }
    match query_seen(query, &here.below()) {
        Ok(shown) => add_inner(shown, facts),
        Err(refusal) => Err(refusal),
    }
}

/// One more operand behind those so far, which were answered or refused.
#[cycle(seen)]
pub fn operand(
    tree: &ExprTree,
    need: Need,
    so_far: Result<Operands, Refusal>,
    here: &Here,
    facts: &mut Facts,
) -> Result<Operands, Refusal>
    requires { IsSound here.now.catalog.now }
    ensures { OperandsBehind (operand (surroundings here.now) need (part_of here.now.catalog.now tree.now)
        ∷ []) so_far facts.old facts.new result }
{
    match so_far {
        Ok(operands) => operands_with(operands, need, tree.at, expression_seen(tree, here, facts)),
        Err(refusal) => Err(refusal),
    }
}

/// Operands of one need behind those so far.
#[cycle(seen)]
pub fn operands(
    trees: &[ExprTree],
    need: Need,
    so_far: Result<Operands, Refusal>,
    here: &Here,
    facts: &mut Facts,
) -> Result<Operands, Refusal>
    requires { IsSound here.now.catalog.now }
    ensures { OperandsBehind (map (operand (surroundings here.now) need)
        (map (part_of here.now.catalog.now) trees.now)) so_far facts.old facts.new result }
{
    let mut seen = so_far;
    for tree in trees {
        seen = operand(tree, need, seen, here, facts);
    }
    seen
}

/// The operands of the steps of a chain behind those so far.
#[cycle(seen)]
pub fn operands_of_steps(
    steps: &[ExprStep],
    so_far: Result<Operands, Refusal>,
    here: &Here,
    facts: &mut Facts,
) -> Result<Operands, Refusal>
    requires { IsSound here.now.catalog.now }
    ensures { OperandsBehind (map (step_operand (surroundings here.now))
        (map (step_of here.now.catalog.now) steps.now)) so_far facts.old facts.new result }
{
    let mut seen = so_far;
    for step in steps {
        let need = need_of(Operator::Arith(step.op), false);
        seen = operand(&step.part, need, seen, here, facts);
    }
    seen
}

/// The conditions and values of the arms of a CASE behind those so far.
#[cycle(seen)]
pub fn operands_of_arms(
    arms: &[ArmTree],
    so_far: Result<Operands, Refusal>,
    here: &Here,
    facts: &mut Facts,
) -> Result<Operands, Refusal>
    requires { IsSound here.now.catalog.now }
    ensures { OperandsBehind (flat_map (arm_operands (surroundings here.now))
        (map (arm_of here.now.catalog.now) arms.now)) so_far facts.old facts.new result }
{
    let mut seen = so_far;
    for arm in arms {
        let condition = Need::OfKind(Kind::Boolean);
        seen = operand(&arm.condition, condition, seen, here, facts);
        seen = operand(&arm.value, Need::Alike, seen, here, facts);
    }
    seen
}
