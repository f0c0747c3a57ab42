//! What FROM reads, with its joins.
ghost use Rattle.std.specs.Prelude.{ℕ, suc, ◌∷◌, List, IfOk, map, option_map};
ghost use Rattle.perm_catalog.specs.Sound.{IsSound};
ghost use Rattle.name_meaning.specs.Froms.{from_all};
ghost use Rattle.name_meaning.specs.Trees.{from_item_of, from_of, join_of, part_of};
ghost use Rattle.name_seen_parts.specs.Named.{scopes_of};
ghost use Rattle.name_seen_parts.specs.Standing.{around_beside, around_of};
ghost use Rattle.name_made_parts.specs.Sources.{MakesBeside, MakesFrom, MakesJoin, MakesOn, MakesSource};

use crate::cores::condition_made;
use crate::queries::query_made;
use bag_algebra::Query;
use name_made_parts::{
    MadeCondition, behind, input_or_single, join_kind, marked_of, named_item, segment, shown_names,
    with_lateral, with_next, with_right,
};
use name_meaning::Scope;
use name_seen_parts::{Around, inside, is_lateral};
use perm_values::NoMemory;
use sql_tree::{ExprTree, FromItem, FromSource, FromTree, JoinStep};

/// All of FROM, whose items are in scope.
#[cycle(made)]
pub(crate) fn sources_made(
    sources: &[FromTree],
    around: &Around,
    scope: &Scope,
) -> Result<Query, NoMemory>
    requires { IsSound around.now.catalog.now }
    ensures { IfOk result (MakesFrom (from_all (scopes_of around.now.outer.now)
        (map (from_of around.now.catalog.now) sources.now)) 0 scope.now) }
{
    let mut whole = None;
    let mut first = 0;
    for source in sources {
        let next = source_made(source, first, around, scope);
        whole = Some(with_next(around.alloc, whole, next)?);
        let Ok(next_first) = behind(first, source) else {
            drop(whole);
            return Err(NoMemory);
        };
        first = next_first;
    }
    Ok(input_or_single(whole))
}

/// An item of FROM with the joins behind it; its items are in scope behind the first ones.
#[cycle(made)]
fn source_made(
    source: &FromTree,
    first: usize,
    around: &Around,
    scope: &Scope,
) -> Result<Query, NoMemory>
    requires { IsSound around.now.catalog.now }
    ensures { IfOk result (λ query. (earlier : List (List ℕ)) →
        MakesFrom ((from_of around.now.catalog.now source.now).means (scopes_of around.now.outer.now) earlier)
        first scope.now query) }
{
    let mut whole = item_made(&source.first, &around.in_from())?;
    for (place, step) in source.joins.as_slice().iter().enumerate() {
        whole = join_made(step, whole, first, place + 1, around, scope)?;
    }
    Ok(whole)
}

/// An item whose subquery sees as many items behind the first ones.
#[cycle(made)]
fn beside_made(
    item: &FromItem,
    first: usize,
    before: usize,
    around: &Around,
    scope: &Scope,
) -> Result<Query, NoMemory>
    requires { IsSound around.now.catalog.now }
    ensures { IfOk result (MakesBeside (scopes_of around.now.outer.now)
        (from_item_of around.now.catalog.now item.now) first before scope.now) }
{
    let own = segment(around.alloc, scope, first, before)?;
    let made = seeing_made(item, &own, around);
    drop(own);
    made
}

/// An item whose subquery sees this scope.
#[cycle(made)]
fn seeing_made(item: &FromItem, own: &Scope, around: &Around) -> Result<Query, NoMemory>
    requires { IsSound around.now.catalog.now }
    ensures { IfOk result (λ query. (earlier : List (List ℕ)) →
        MakesSource ((from_item_of around.now.catalog.now item.now).means
        (around_beside (own.now ∷ scopes_of around.now.outer.now)) earlier) query) }
{
    let scopes = inside(&*own, false, &*around.outer)?;
    item_made(item, &(&*around).lateral(&scopes))
}

/// One more join, behind as many items.
#[cycle(made)]
fn join_made(
    step: &JoinStep,
    whole: Query,
    first: usize,
    before: usize,
    around: &Around,
    scope: &Scope,
) -> Result<Query, NoMemory>
    requires { IsSound around.now.catalog.now }
    ensures { IfOk result (MakesJoin (scopes_of around.now.outer.now)
        (join_of around.now.catalog.now step.now) first before scope.now whole) }
{
    if is_lateral(step.word) {
        let right = beside_made(&step.item, first, before, around, scope);
        return with_lateral(around.alloc, join_kind(step.word), whole, right);
    }
    let kept = on_made(&step.condition, first, before, around, scope);
    let right = item_made(&step.item, &around.in_from());
    with_right(around.alloc, join_kind(step.word), whole, right, kept)
}

/// A condition of ON, which sees as many items behind the first ones, and one more.
#[cycle(made)]
fn on_made(
    condition: &Option<ExprTree>,
    first: usize,
    before: usize,
    around: &Around,
    scope: &Scope,
) -> Result<MadeCondition, NoMemory>
    requires { IsSound around.now.catalog.now }
    ensures { IfOk result (MakesOn (scopes_of around.now.outer.now)
        (option_map (part_of around.now.catalog.now) condition.now) first (suc before) scope.now) }
{
    let Some(count) = before.checked_add(1) else {
        return Err(NoMemory);
    };
    let own = segment(around.alloc, scope, first, count)?;
    let kept = condition_made(condition, false, around, &own);
    drop(own);
    kept
}

/// An item of FROM, whose subquery stands there.
#[cycle(made)]
fn item_made(item: &FromItem, around: &Around) -> Result<Query, NoMemory>
    requires { IsSound around.now.catalog.now }
    ensures { IfOk result (λ query. (earlier : List (List ℕ)) →
        MakesSource ((from_item_of around.now.catalog.now item.now).means (around_of around.now) earlier)
        query) }
{
    match &item.source {
        FromSource::Named(name) => named_item(around.alloc, &*around.catalog, name, &item.mark),
        FromSource::Inner(query) => {
            let tree = query.get();
            let shown = shown_names(tree, around)?;
            let query = query_made(tree, &[], around);
            marked_of(around.alloc, query, shown, &item.alias, &item.mark)
        }
    }
}
