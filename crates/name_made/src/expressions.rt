//! Expressions, made where they stand at the kinds that are wanted of them.
ghost use Rattle.std.specs.Prelude.{◌≡◌, ℕ, false, [], IfOk, map};
ghost use Rattle.bag_algebra.specs.declared.expr.Expr.TheVariants.{Lit, Op};
ghost use Rattle.perm_catalog.specs.Sound.{IsSound};
ghost use Rattle.perm_values.specs.declared.kind.Kind.{Kind};
ghost use Rattle.perm_values.specs.declared.kind.Kind.TheVariants as kind;
ghost use Rattle.perm_values.specs.declared.value.Value.TheVariants as value;
ghost use Rattle.name_meaning.specs.Meanings.{means_at, query_means_at};
ghost use Rattle.name_meaning.specs.Operands.{node, operand};
ghost use Rattle.name_meaning.specs.Sublinks.{aggregated, around_of, exists_meant, if_standing, in_argument, in_tested, scalar_meant};
ghost use Rattle.name_meaning.specs.Trees.{arm_of, part_of, query_of, step_of};
ghost use Rattle.name_meaning.specs.nodes.Makes.{Links, Makes, MakesArms, MakesMore, MakesSteps};
ghost use Rattle.name_seen_parts.specs.Standing.{surroundings};

use crate::queries::query_made;
use bag_algebra::{Arm, ChainStep, Expr, SubKind};
use name_made_parts::{
    alike_behind, alike_of_all, alike_of_arms, alike_of_case, alike_of_three, alike_of_two,
    group_count, kind_or_any, scalar_kind, tested_kind,
};
use name_meaning::{
    Gives, Need, Within, aggregate_of, argument_wanted, arm_of, between, case, chain_start,
    chained, column_made, count_made, in_kind, in_list, in_list_kind, integer_value, like, null_at,
    null_tested, on_parts, on_two, repeated, same_tested, step_of, sublink_of, text_value,
    truth_tested, truth_value, wanted_of, with_more,
};
use name_seen_cores::{in_argument, in_tested};
use name_seen_parts::{Around, Here, gives_of, look_up, need_of, ungrouped};
use null_logic::Operator;
use perm_values::{Kind, List, NoMemory};
use sql_tree::{AggWord, ArmTree, ExprBody, ExprStep, ExprTree, QueryTree};

/// The expression where it stands, at the kind that is wanted of it if it may be of any. What it adds to the sublinks and
/// aggregates of its clause comes behind those found so far. It fails only for want of memory.
#[cycle(made)]
pub fn made(
    tree: &ExprTree,
    wanted: Kind,
    here: &Here,
    found: &mut Within,
) -> Result<Expr, NoMemory>
    requires { IsSound here.now.catalog.now }
    ensures { IfOk result (λ e. Makes here.now.standing.sublinks
        (means_at (part_of here.now.catalog.now tree.now) (surroundings here.now)) wanted e
        found.old found.new) }
{
    let alloc = here.alloc;
    match &tree.body {
        ExprBody::Null => Ok(null_at(wanted)),
        ExprBody::NullOf(kind) => Ok(null_at(*kind)),
        ExprBody::Integer(number) => Ok(integer_read(number)),
        ExprBody::Text(text) => text_value(alloc, text),
        ExprBody::Truth(truth) => Ok(truth_value(*truth)),
        ExprBody::Column(reference) => {
            let meant = look_up(&*here.scopes, reference);
            Ok(column_made(meant, wanted))
        }
        ExprBody::Paren(part) => made(part.get(), wanted, here, found),
        ExprBody::Nots { count, part } => {
            let part = made(part.get(), Kind::Boolean, here, found);
            repeated(alloc, Operator::Not, *count, part)
        }
        ExprBody::Signs { count, part } => {
            let part = made(part.get(), Kind::Integer, here, found);
            repeated(alloc, Operator::Negate, *count, part)
        }
        ExprBody::Logic { op, parts } => {
            let need = need_of(*op, false);
            let gives = gives_of(*op, false);
            operator_made(parts.as_slice(), *op, need, gives, wanted, here, found)
        }
        ExprBody::Chain { first, steps } => {
            let first = made(first.get(), chain_start(steps.as_slice()), here, found);
            let steps = steps_made(steps.as_slice(), here, found);
            chained(alloc, first, steps)
        }
        ExprBody::Compared { op, first, second } => {
            let op = Operator::Compare(*op);
            let need = Need::Alike;
            let gives = Gives::Always(Kind::Boolean);
            let first = first.get();
            let second = second.get();
            let alike = alike_of_two(need, gives, first, second, wanted, here)?;
            let first = made(first, alike, here, found);
            let second = made(second, alike, here, found);
            on_two(alloc, op, first, second)
        }
        ExprBody::Like {
            negated,
            text,
            pattern,
        } => {
            let text = made(text.get(), Kind::Text, here, found);
            let pattern = made(pattern.get(), Kind::Text, here, found);
            like(alloc, *negated, text, pattern)
        }
        ExprBody::Between {
            negated,
            part,
            low,
            high,
        } => {
            let part = part.get();
            let low = low.get();
            let high = high.get();
            let alike = alike_of_three(part, low, high, here)?;
            let part = made(part, alike, here, found);
            let low = made(low, alike, here, found);
            let high = made(high, alike, here, found);
            between(alloc, *negated, part, low, high)
        }
        ExprBody::InList {
            negated,
            part,
            list,
        } => {
            let part = part.get();
            let list = list.as_slice();
            let alike = alike_behind(part, list, here)?;
            let part = made(part, alike, here, found);
            let list = operands_made(list, Need::Alike, alike, here, found);
            in_list(alloc, *negated, part, list)
        }
        ExprBody::IsNull { negated, part } => {
            let part = made(part.get(), Kind::Text, here, found);
            null_tested(alloc, *negated, part)
        }
        ExprBody::IsTruth {
            negated,
            truth,
            part,
        } => {
            let part = made(part.get(), Kind::Boolean, here, found);
            truth_tested(alloc, *negated, *truth, part)
        }
        ExprBody::IsDistinct {
            negated,
            first,
            second,
        } => {
            let gives = Gives::Always(Kind::Boolean);
            let first = first.get();
            let second = second.get();
            let alike = alike_of_two(Need::Alike, gives, first, second, wanted, here)?;
            let first = made(first, alike, here, found);
            let second = made(second, alike, here, found);
            same_tested(alloc, !*negated, first, second)
        }
        ExprBody::Case { arms, otherwise } => match otherwise {
            None => {
                let arms = arms.as_slice();
                let alike = alike_of_arms(arms, wanted, here)?;
                let arms = arms_made(arms, alike, here, found);
                case(alloc, arms, Ok(null_at(alike)))
            }
            Some(part) => {
                let arms = arms.as_slice();
                let part = part.get();
                let alike = alike_of_case(arms, part, wanted, here)?;
                let arms = arms_made(arms, alike, here, found);
                let otherwise = made(part, alike, here, found);
                case(alloc, arms, otherwise)
            }
        },
        ExprBody::Coalesce(list) => operator_made(
            list.as_slice(),
            Operator::Coalesce,
            Need::Alike,
            Gives::Common,
            wanted,
            here,
            found,
        ),
        ExprBody::NullIf { first, second } => {
            let first = first.get();
            let second = second.get();
            let alike = alike_of_two(Need::Alike, Gives::Common, first, second, wanted, here)?;
            let first = made(first, alike, here, found);
            let second = made(second, alike, here, found);
            on_two(alloc, Operator::NullIf, first, second)
        }
        ExprBody::Aggregate { function, argument } => match argument {
            None => count_made(group_count(&*here.scopes), *function, found),
            Some(argument) => aggregated(argument.get(), *function, here, found),
        },
        ExprBody::Exists(query) => exists_made(query.get(), here, found),
        ExprBody::Scalar(query) => scalar_made(query.get(), wanted, here, found),
        ExprBody::InQuery {
            negated,
            part,
            query,
        } => {
            if !here.standing.sublinks {
                return Ok(null_at(Kind::Boolean));
            }
            let part = part.get();
            let query = query.get();
            let kind = tested_kind(part, query, here)?;
            let tested = tested_made(part, kind, here, found)?;
            let sub = in_list_kind(*negated);
            linked(query, sub, Some(tested), &[kind], here, found)
        }
        ExprBody::Quantified {
            every,
            op,
            part,
            query,
        } => {
            if !here.standing.sublinks {
                return Ok(null_at(Kind::Boolean));
            }
            let part = part.get();
            let query = query.get();
            let kind = tested_kind(part, query, here)?;
            let tested = tested_made(part, kind, here, found)?;
            let sub = in_kind(*every, *op);
            linked(query, sub, Some(tested), &[kind], here, found)
        }
    }
}

fn integer_read(number: &i64) -> Expr
    ensures { result ≡ Lit (value.Integer number.now) kind.Integer }
{
    integer_value(*number)
}

/// Operands of one need.
#[cycle(made)]
fn operands_made(
    trees: &[ExprTree],
    need: Need,
    alike: Kind,
    here: &Here,
    found: &mut Within,
) -> Result<List<Expr>, NoMemory>
    requires { IsSound here.now.catalog.now }
    ensures { IfOk result (λ parts. MakesMore here.now.standing.sublinks alike
        (map (operand (surroundings here.now) need) (map (part_of here.now.catalog.now) trees.now)) [] parts
        found.old found.new) }
{
    let mut parts = List::new(here.alloc);
    for tree in trees {
        let part = made(tree, wanted_of(alike, need), here, found);
        parts = with_more(parts, part)?;
    }
    Ok(parts)
}

/// The operator on operands of one need.
#[cycle(made)]
fn operator_made(
    trees: &[ExprTree],
    op: Operator,
    need: Need,
    gives: Gives,
    wanted: Kind,
    here: &Here,
    found: &mut Within,
) -> Result<Expr, NoMemory>
    requires { IsSound here.now.catalog.now }
    ensures { IfOk result (λ e. Makes here.now.standing.sublinks
        (node gives (Op op) (map (operand (surroundings here.now) need)
        (map (part_of here.now.catalog.now) trees.now))) wanted e found.old found.new) }
{
    let alike = alike_of_all(need, gives, trees, wanted, here)?;
    let parts = operands_made(trees, need, alike, here, found);
    on_parts(op, parts)
}

/// The steps of a chain.
#[cycle(made)]
fn steps_made(
    steps: &[ExprStep],
    here: &Here,
    found: &mut Within,
) -> Result<List<ChainStep>, NoMemory>
    requires { IsSound here.now.catalog.now }
    ensures { IfOk result (λ made. (alike : Kind)
        → MakesSteps here.now.standing.sublinks alike (surroundings here.now)
        (map (step_of here.now.catalog.now) steps.now) made found.old found.new) }
{
    let mut made_steps = List::new(here.alloc);
    for step in steps {
        let part = made(&step.part, Kind::Integer, here, found);
        made_steps = with_more(made_steps, step_of(step.op, part))?;
    }
    Ok(made_steps)
}

/// The arms of a CASE, whose values take this kind if they may be of any.
#[cycle(made)]
fn arms_made(
    arms: &[ArmTree],
    alike: Kind,
    here: &Here,
    found: &mut Within,
) -> Result<List<Arm>, NoMemory>
    requires { IsSound here.now.catalog.now }
    ensures { IfOk result (λ made. MakesArms here.now.standing.sublinks alike (surroundings here.now)
        (map (arm_of here.now.catalog.now) arms.now) made found.old found.new) }
{
    let mut made_arms = List::new(here.alloc);
    for arm in arms {
        let condition = made(&arm.condition, Kind::Boolean, here, found);
        let value = made(&arm.value, alike, here, found);
        made_arms = with_more(made_arms, arm_of(condition, value))?;
    }
    Ok(made_arms)
}

/// An aggregate of an argument.
#[cycle(made)]
fn aggregated(
    argument: &ExprTree,
    word: AggWord,
    here: &Here,
    found: &mut Within,
) -> Result<Expr, NoMemory>
    requires { IsSound here.now.catalog.now }
    ensures { IfOk result (λ e. (at argument_at : ℕ) (wanted : Kind) → Makes here.now.standing.sublinks
        (aggregated (surroundings here.now) at word argument_at
        (means_at (part_of here.now.catalog.now argument.now) (in_argument (surroundings here.now)))) wanted e
        found.old found.new) }
{
    let scopes = ungrouped(&*here.scopes);
    let inner = Here {
        alloc: here.alloc,
        catalog: &*here.catalog,
        scopes: &scopes,
        standing: in_argument(here.standing),
    };
    let kind = kind_or_any(argument, &inner)?;
    let mut own = Within::nothing(here.alloc);
    let part = made(argument, argument_wanted(word), &inner, &mut own);
    drop(own);
    aggregate_of(group_count(&*here.scopes), word, kind, part, found)
}

/// Whether a query has a row.
#[cycle(made)]
fn exists_made(query: &QueryTree, here: &Here, found: &mut Within) -> Result<Expr, NoMemory>
    requires { IsSound here.now.catalog.now }
    ensures { IfOk result (λ e. (at query_at : ℕ) (wanted : Kind) → Makes here.now.standing.sublinks
        (if_standing (surroundings here.now) at (Some kind.Boolean)
        (exists_meant (surroundings here.now) query_at
        (query_means_at (query_of here.now.catalog.now query.now) (around_of (surroundings here.now)))))
        wanted e found.old found.new) }
{
    if !here.standing.sublinks {
        return Ok(null_at(Kind::Boolean));
    }
    linked(query, SubKind::Exists, None, &[], here, found)
}

/// The value of a query's one column.
#[cycle(made)]
fn scalar_made(
    query: &QueryTree,
    wanted: Kind,
    here: &Here,
    found: &mut Within,
) -> Result<Expr, NoMemory>
    requires { IsSound here.now.catalog.now }
    ensures { IfOk result (λ e. (at query_at : ℕ) → Makes here.now.standing.sublinks
        (if_standing (surroundings here.now) at None (scalar_meant (surroundings here.now) query_at
        (query_means_at (query_of here.now.catalog.now query.now) (around_of (surroundings here.now)))))
        wanted e found.old found.new) }
{
    if !here.standing.sublinks {
        return Ok(null_at(wanted));
    }
    let kind = scalar_kind(query, wanted, here)?;
    linked(query, SubKind::Scalar, None, &[kind], here, found)
}

/// A sublink with its query, made at these kinds.
#[cycle(made)]
fn linked(
    query: &QueryTree,
    kind: SubKind,
    tested: Option<Expr>,
    wanted: &[Kind],
    here: &Here,
    found: &mut Within,
) -> Result<Expr, NoMemory>
    requires { IsSound here.now.catalog.now }
    ensures { IfOk result (λ e. Links kind tested
        (query_means_at (query_of here.now.catalog.now query.now) (around_of (surroundings here.now)))
        wanted.now e found.old found.new) }
{
    let around = Around {
        alloc: here.alloc,
        catalog: &*here.catalog,
        outer: &*here.scopes,
        may_ask: false,
    };
    let query = query_made(query, wanted, &around);
    sublink_of(kind, tested, query, found)
}

/// The left operand of a sublink, in which no sublink stands.
#[cycle(made)]
fn tested_made(
    tree: &ExprTree,
    wanted: Kind,
    here: &Here,
    found: &mut Within,
) -> Result<Expr, NoMemory>
    requires { IsSound here.now.catalog.now }
    ensures { IfOk result (λ e. Makes false
        (means_at (part_of here.now.catalog.now tree.now) (in_tested (surroundings here.now))) wanted e
        found.old found.new) }
{
    let inner = Here {
        alloc: here.alloc,
        catalog: &*here.catalog,
        scopes: &*here.scopes,
        standing: in_tested(here.standing),
    };
    made(tree, wanted, &inner, found)
}
