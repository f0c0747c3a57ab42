//! What the clauses of a core rest on.
ghost use Rattle.std.specs.Prelude.{◌≡◌, ◌⊎◌, [], Err, IfOk, IfErr, IsOkAnd, None, map};
ghost use Rattle.perm_catalog.specs.Contents.{Contents};
ghost use Rattle.perm_catalog.specs.Sound.{IsSound};
ghost use Rattle.name_meaning.specs.Cores.{group_scope};
ghost use Rattle.name_meaning.specs.Froms.{from_all};
ghost use Rattle.name_meaning.specs.Trees.{from_of};
ghost use Rattle.name_seen_parts.specs.Named.{scopes_of};
ghost use Rattle.name_made_parts.specs.Cored.{core_groups, having_part, kept_of, select_parts};
ghost use Rattle.name_made_parts.specs.Sources.{IsScopeOf};

use bag_algebra::{Aggr, Expr, Item};
use name_meaning::{Clauses, Condition, Listed, Scope, Within, beside};
use name_seen::from_scope;
use name_seen_cores::{Facts, places_of_groups};
use name_seen_parts::{Around, Refusal, grouped};
use perm_values::{Copyable, List, NoMemory, both};
use sql_tree::{Core, FromTree};
use std::alloc::Global;

/// A condition that is made, if there is one, and the aggregates in it.
#[derive(Drop)]
pub struct MadeCondition {
    pub condition: Option<Condition>,
    pub aggregates: List<Aggr>,
}

/// No condition.
pub fn nothing_kept(alloc: Global) -> MadeCondition
    ensures { result ≡ record { condition = None; aggregates = [] } }
{
    MadeCondition {
        condition: None,
        aggregates: List::new(alloc),
    }
}

/// A condition, with what was found in it.
pub fn kept_of(expr: Result<Expr, NoMemory>, found: Within) -> Result<MadeCondition, NoMemory>
    ensures made { IfOk result (λ kept. IsOkAnd expr (λ expr. kept ≡ kept_of expr found)) }
    ensures lacking { IfErr result (λ lack. expr ≡ Err lack) }
{
    let (found, expr) = beside(found, expr)?;
    let Within { subs, aggregates } = found;
    Ok(MadeCondition {
        condition: Some(Condition { expr, subs }),
        aggregates,
    })
}

/// What is found before the list: the aggregates of HAVING.
pub fn behind_aggregates(alloc: Global, aggregates: List<Aggr>) -> Within
    ensures { result ≡ record { subs = []; aggregates = aggregates } }
{
    Within {
        subs: List::new(alloc),
        aggregates,
    }
}

/// The list of these columns, with what was found in it.
pub fn listed_of(items: Result<List<Item>, NoMemory>, found: Within) -> Result<Listed, NoMemory>
    ensures made { IfOk result (λ listed. IsOkAnd items (λ items.
        listed ≡ record { items = items; subs = found.subs; aggregates = found.aggregates })) }
    ensures lacking { IfErr result (λ lack. items ≡ Err lack) }
{
    let (found, items) = beside(found, items)?;
    let Within { subs, aggregates } = found;
    Ok(Listed {
        items,
        subs,
        aggregates,
    })
}

/// What a core does with the rows of its FROM.
pub fn clauses_of(
    groups: Result<Option<List<usize>>, NoMemory>,
    kept: Result<MadeCondition, NoMemory>,
    selected: Result<(Option<Condition>, Listed), NoMemory>,
    distinct: bool,
) -> Result<Clauses, NoMemory>
    ensures made { IfOk result (λ made. IsOkAnd groups (λ groups. IsOkAnd kept (λ kept.
        IsOkAnd selected (λ selected. made ≡ record {
          condition = kept.condition;
          groups = groups;
          having = selected.0;
          list = selected.1;
          distinct = distinct;
        })))) }
    ensures lacking { IfErr result (λ lack.
        ((groups ≡ Err lack) ⊎ (kept ≡ Err lack)) ⊎ (selected ≡ Err lack)) }
{
    let before = both(groups, kept);
    let (before, selected) = both(before, selected)?;
    let (groups, kept) = before;
    let (having, list) = selected;
    Ok(Clauses {
        condition: condition_of(kept),
        groups,
        having,
        list,
        distinct,
    })
}

/// The condition that is kept, if there is one.
pub(crate) fn condition_of(kept: MadeCondition) -> Option<Condition>
    ensures { result ≡ kept.condition }
{
    let MadeCondition {
        condition,
        aggregates: _aggregates,
    } = kept;
    condition
}

/// The groups of a scope, copied.
pub fn groups_of(alloc: Global, scope: &Scope) -> Result<Option<List<usize>>, NoMemory>
    ensures { IfOk result (λ groups. groups ≡ scope.now.groups) }
{
    scope.groups.copy(alloc)
}

/// The scope of all items of FROM; none, where it breaks.
pub fn scope_or_none(sources: &[FromTree], around: &Around) -> Result<Option<Scope>, NoMemory>
    requires { IsSound around.now.catalog.now }
    ensures { IfOk result (IsScopeOf (from_all (scopes_of around.now.outer.now)
        (map (from_of around.now.catalog.now) sources.now))) }
{
    let mut facts = Facts::none(around.alloc);
    match from_scope(sources, around, &mut facts) {
        Ok(scope) => Ok(Some(scope)),
        Err(Refusal::Break(_)) => Ok(None),
        Err(Refusal::NoMemory) => Err(NoMemory),
    }
}

/// The core's scope, whose rows stand for groups where there are any.
pub fn scope_grouped(alloc: Global, own: Scope, core: &Core) -> Result<Scope, NoMemory>
    ensures { IfOk result (λ scope. (c : Contents) → scope ≡ record own {
      groups =
          (group_scope own (core_groups core.now) (having_part c core.now) (select_parts c core.now)).groups;
    }) }
{
    let groups = places_of_groups(alloc, core, &own);
    let (own, groups) = beside(own, groups)?;
    Ok(grouped(own, groups))
}
