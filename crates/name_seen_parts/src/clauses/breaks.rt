//! Clauses of a core, over expressions that were answered or refused.
ghost use Rattle.std.specs.Prelude.{◌≡◌, [], Err, IfOk, Some, cond, filter_map, flat_map};
ghost use Rattle.name_seen_parts.specs.Seen.{first_or, seen};
ghost use Rattle.name_seen_parts.specs.declared.refusal.Refusal.TheVariants.{NoMemory as Short};
ghost use Rattle.name_meaning.specs.Cores.{group_break, group_found, group_place, word_breaks};
ghost use Rattle.name_meaning.specs.Froms.{condition_breaks};
ghost use Rattle.name_meaning.specs.Meanings.{Around as Place, Meant};
ghost use Rattle.name_seen_parts.specs.Told.{Tells};

use crate::forms::condition_kind;
use crate::refusal::Refusal;
use crate::scopes::{Scopes, look_up};
use name_meaning::{Break, Found, Rule, Scope};
use perm_values::{Kind, List, NoMemory};
use sql_tree::ColRef;
use std::alloc::Global;

/// That the word PROVENANCE stands at this offset, where it may not.
pub fn word_break(may_ask: bool, word: Option<usize>) -> Result<(), Break>
    ensures { (around : Place) → around.may_ask ≡ may_ask → result ≡ first_or (word_breaks around word) tt }
{
    if may_ask {
        return Ok(());
    }
    match word {
        None => Ok(()),
        Some(at) => Err(Break {
            rule: Rule::MisplacedProvenance,
            at,
        }),
    }
}

/// That a condition at this offset, whose kind was answered or refused, breaks a rule.
pub fn condition_over(at: usize, kind: Result<Option<Kind>, Refusal>) -> Result<(), Refusal>
    ensures tells { (meant : Meant) → Tells (seen meant) kind
        → Tells (first_or (condition_breaks at meant) tt) result }
    ensures short { result ≡ Err Short → kind ≡ Err Short }
{
    match kind {
        Ok(kind) => Ok(condition_kind(at, kind)?),
        Err(refusal) => Err(refusal),
    }
}

/// The first GROUP BY column that is no column of the core, or more than one.
pub fn groups_break(scope: &Scope, groups: &[ColRef]) -> Result<(), Break>
    ensures { result ≡ first_or (flat_map (group_break scope.now) groups.now) tt }
{
    for group in groups {
        match group_break(scope, group) {
            Ok(()) => {}
            Err(first) => return Err(first),
        }
    }
    Ok(())
}

fn group_break(scope: &Scope, group: &ColRef) -> Result<(), Break>
    ensures { result ≡ first_or (group_break scope.now group.now) tt }
{
    let at = group.at;
    match group_found(scope, group) {
        Found::Absent => Err(Break {
            rule: Rule::UnknownColumn,
            at,
        }),
        Found::Ambiguous => Err(Break {
            rule: Rule::AmbiguousColumn,
            at,
        }),
        Found::Column(_) => Ok(()),
    }
}

fn group_found(scope: &Scope, group: &ColRef) -> Found
    ensures { result ≡ group_found scope.now group.now }
{
    let outermost = Scopes::Outermost;
    let own = Scopes::Inner {
        scope,
        bare: false,
        depth: 1,
        outer: &outermost,
    };
    look_up(&own, group)
}

/// The places of the GROUP BY columns, in the order written.
pub fn group_places(
    alloc: Global,
    scope: &Scope,
    groups: &[ColRef],
) -> Result<List<usize>, NoMemory>
    ensures { IfOk result (λ places. places ≡ filter_map (group_place scope.now) groups.now) }
{
    let mut places = List::new(alloc);
    for group in groups {
        match group_place(scope, group) {
            Some(place) => places.push(place)?,
            None => {}
        }
    }
    Ok(places)
}

fn group_place(scope: &Scope, group: &ColRef) -> Option<usize>
    ensures { result ≡ group_place scope.now group.now }
{
    match group_found(scope, group) {
        Found::Absent => None,
        Found::Ambiguous => None,
        Found::Column(column) => column.place,
    }
}

/// The core's scope, whose rows stand for groups where there are any.
pub fn grouped(scope: Scope, groups: Option<List<usize>>) -> Scope
    ensures { result ≡ record scope { groups = groups } }
{
    let Scope {
        items,
        columns,
        groups: _ungrouped,
    } = scope;
    Scope {
        items,
        columns,
        groups,
    }
}
