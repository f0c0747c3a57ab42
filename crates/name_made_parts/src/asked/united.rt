//! The kinds that operands take, as the first pass finds them.
ghost use Rattle.std.specs.Prelude.{◌≡◌, ◌∷◌, ◌++◌, [], IfOk, map, flat_map};
ghost use Rattle.perm_values.specs.declared.kind.Kind.TheVariants.{Text};
ghost use Rattle.name_meaning.specs.Expressions.{arm_operands, else_operand};
ghost use Rattle.name_meaning.specs.Meanings.{means_at, query_means_at, seen_kind, settled, united_kind};
ghost use Rattle.name_meaning.specs.Operands.{alike_wanted, operand, united};
ghost use Rattle.name_meaning.specs.Sublinks.{around_of, first_kind, in_tested, tested_kind};
ghost use Rattle.name_meaning.specs.Trees.{arm_of, part_of, query_of};
ghost use Rattle.name_meaning.specs.declared.need.Need.TheVariants.{Alike};
ghost use Rattle.name_seen_parts.specs.Standing.{surroundings};
ghost use Rattle.perm_catalog.specs.Sound.{IsSound};

use name_meaning::{Gives, Need, alike_wanted, settled};
use name_seen::{kind_of, query_seen};
use name_seen_cores::{in_tested, kind_of_first};
use name_seen_parts::{Here, Refusal};
use perm_values::{Kind, NoMemory};
use sql_tree::{ArmTree, ExprTree, QueryTree};

/// The kind of an expression; what breaks is of any.
pub fn kind_or_any(tree: &ExprTree, here: &Here) -> Result<Option<Kind>, NoMemory>
    requires { IsSound here.now.catalog.now }
    ensures { IfOk result (λ kind. kind
        ≡ seen_kind (means_at (part_of here.now.catalog.now tree.now) (surroundings here.now))) }
{
    match kind_of(tree, here) {
        Ok(kind) => Ok(kind),
        Err(Refusal::Break(_)) => Ok(None),
        Err(Refusal::NoMemory) => Err(NoMemory),
    }
}

/// What operands are united to, those so far and one more.
fn united_with(
    so_far: Option<Kind>,
    need: Need,
    tree: &ExprTree,
    here: &Here,
) -> Result<Option<Kind>, NoMemory>
    requires { IsSound here.now.catalog.now }
    ensures { IfOk result (λ kind. kind ≡ united_kind so_far
        (united (operand (surroundings here.now) need (part_of here.now.catalog.now tree.now) ∷ []))) }
{
    match need {
        Need::OfKind(_) => Ok(so_far),
        Need::Free => Ok(so_far),
        Need::Alike => match so_far {
            Some(kind) => Ok(Some(kind)),
            None => kind_or_any(tree, here),
        },
    }
}

/// What operands are united to, those so far and all of these.
fn united_with_all(
    so_far: Option<Kind>,
    need: Need,
    trees: &[ExprTree],
    here: &Here,
) -> Result<Option<Kind>, NoMemory>
    requires { IsSound here.now.catalog.now }
    ensures { IfOk result (λ kind. kind ≡ united_kind so_far
        (united (map (operand (surroundings here.now) need)
        (map (part_of here.now.catalog.now) trees.now)))) }
{
    let mut kind = so_far;
    for tree in trees {
        kind = united_with(kind, need, tree, here)?;
    }
    Ok(kind)
}

/// What the values of the arms of a CASE are united to.
fn arms_united(arms: &[ArmTree], here: &Here) -> Result<Option<Kind>, NoMemory>
    requires { IsSound here.now.catalog.now }
    ensures { IfOk result (λ kind. kind ≡
        united (flat_map (arm_operands (surroundings here.now))
        (map (arm_of here.now.catalog.now) arms.now))) }
{
    let mut kind = None;
    for arm in arms {
        kind = united_with(kind, Need::Alike, &arm.value, here)?;
    }
    Ok(kind)
}

/// The kind that all operands of one need take, if they are to be alike.
pub fn alike_of_all(
    need: Need,
    gives: Gives,
    trees: &[ExprTree],
    wanted: Kind,
    here: &Here,
) -> Result<Kind, NoMemory>
    requires { IsSound here.now.catalog.now }
    ensures { IfOk result (λ kind. kind ≡ settled
        (united (map (operand (surroundings here.now) need) (map (part_of here.now.catalog.now) trees.now)))
        (alike_wanted gives wanted)) }
{
    let united = united_with_all(None, need, trees, here)?;
    Ok(settled(united, alike_wanted(gives, wanted)))
}

/// The kind that two operands of one need take, if they are to be alike.
pub fn alike_of_two(
    need: Need,
    gives: Gives,
    first: &ExprTree,
    second: &ExprTree,
    wanted: Kind,
    here: &Here,
) -> Result<Kind, NoMemory>
    requires { IsSound here.now.catalog.now }
    ensures { IfOk result (λ kind. kind ≡ settled
        (united (operand (surroundings here.now) need (part_of here.now.catalog.now first.now)
        ∷ operand (surroundings here.now) need (part_of here.now.catalog.now second.now) ∷ []))
        (alike_wanted gives wanted)) }
{
    let united = united_with(None, need, first, here)?;
    let united = united_with(united, need, second, here)?;
    Ok(settled(united, alike_wanted(gives, wanted)))
}

/// The kind that three operands take which are to be alike, under what gives a truth.
pub fn alike_of_three(
    first: &ExprTree,
    second: &ExprTree,
    third: &ExprTree,
    here: &Here,
) -> Result<Kind, NoMemory>
    requires { IsSound here.now.catalog.now }
    ensures { IfOk result (λ kind. kind ≡ settled
        (united (operand (surroundings here.now) Alike (part_of here.now.catalog.now first.now)
        ∷ operand (surroundings here.now) Alike (part_of here.now.catalog.now second.now)
        ∷ operand (surroundings here.now) Alike (part_of here.now.catalog.now third.now) ∷ [])) Text) }
{
    let united = united_with(None, Need::Alike, first, here)?;
    let united = united_with(united, Need::Alike, second, here)?;
    let united = united_with(united, Need::Alike, third, here)?;
    Ok(settled(united, Kind::Text))
}

/// The kind that one operand and those behind it take which are to be alike, under what gives a truth.
pub fn alike_behind(first: &ExprTree, more: &[ExprTree], here: &Here) -> Result<Kind, NoMemory>
    requires { IsSound here.now.catalog.now }
    ensures { IfOk result (λ kind. kind ≡ settled
        (united (operand (surroundings here.now) Alike (part_of here.now.catalog.now first.now)
        ∷ map (operand (surroundings here.now) Alike) (map (part_of here.now.catalog.now) more.now))) Text) }
{
    let united = united_with(None, Need::Alike, first, here)?;
    let united = united_with_all(united, Need::Alike, more, here)?;
    Ok(settled(united, Kind::Text))
}

/// The kind that the values of a CASE without ELSE take.
pub fn alike_of_arms(arms: &[ArmTree], wanted: Kind, here: &Here) -> Result<Kind, NoMemory>
    requires { IsSound here.now.catalog.now }
    ensures { IfOk result (λ kind. kind ≡ settled
        (united (flat_map (arm_operands (surroundings here.now)) (map (arm_of here.now.catalog.now) arms.now)
        ++ else_operand (surroundings here.now) None ∷ [])) wanted) }
{
    let united = arms_united(arms, here)?;
    Ok(settled(united, wanted))
}

/// The kind that the values of a CASE with ELSE take.
pub fn alike_of_case(
    arms: &[ArmTree],
    otherwise: &ExprTree,
    wanted: Kind,
    here: &Here,
) -> Result<Kind, NoMemory>
    requires { IsSound here.now.catalog.now }
    ensures { IfOk result (λ kind. kind ≡ settled
        (united (flat_map (arm_operands (surroundings here.now)) (map (arm_of here.now.catalog.now) arms.now)
        ++ else_operand (surroundings here.now) (Some (part_of here.now.catalog.now otherwise.now)) ∷ []))
        wanted) }
{
    let united = arms_united(arms, here)?;
    let united = united_with(united, Need::Alike, otherwise, here)?;
    Ok(settled(united, wanted))
}

/// The kind of a query's first column as a sublink sees it; what breaks is of any.
fn first_kind(query: &QueryTree, here: &Here) -> Result<Option<Kind>, NoMemory>
    requires { IsSound here.now.catalog.now }
    ensures { IfOk result (λ kind. kind ≡ first_kind
        (query_means_at (query_of here.now.catalog.now query.now) (around_of (surroundings here.now)))) }
{
    match query_seen(query, &here.below()) {
        Ok(shown) => Ok(kind_of_first(shown.columns.as_slice())),
        Err(Refusal::Break(_)) => Ok(None),
        Err(Refusal::NoMemory) => Err(NoMemory),
    }
}

/// The kind at which the query of a scalar sublink is made.
pub fn scalar_kind(query: &QueryTree, wanted: Kind, here: &Here) -> Result<Kind, NoMemory>
    requires { IsSound here.now.catalog.now }
    ensures { IfOk result (λ kind. kind ≡ settled (first_kind
        (query_means_at (query_of here.now.catalog.now query.now) (around_of (surroundings here.now))))
        wanted) }
{
    let column = first_kind(query, here)?;
    Ok(settled(column, wanted))
}

/// The kind of the left operand of a sublink; what breaks is of any.
fn untested_kind(tree: &ExprTree, here: &Here) -> Result<Option<Kind>, NoMemory>
    requires { IsSound here.now.catalog.now }
    ensures { IfOk result (λ kind. kind
        ≡ seen_kind (means_at (part_of here.now.catalog.now tree.now) (in_tested (surroundings here.now)))) }
{
    let inside = Here {
        alloc: here.alloc,
        catalog: &*here.catalog,
        scopes: &*here.scopes,
        standing: in_tested(here.standing),
    };
    kind_or_any(tree, &inside)
}

/// The kind at which the left operand of a sublink and its query's column are made.
pub fn tested_kind(tested: &ExprTree, query: &QueryTree, here: &Here) -> Result<Kind, NoMemory>
    requires { IsSound here.now.catalog.now }
    ensures { IfOk result (λ kind. kind ≡ tested_kind
        (means_at (part_of here.now.catalog.now tested.now) (in_tested (surroundings here.now)))
        (query_means_at (query_of here.now.catalog.now query.now) (around_of (surroundings here.now)))) }
{
    match untested_kind(tested, here)? {
        Some(kind) => Ok(kind),
        None => scalar_kind(query, Kind::Text, here),
    }
}
