//! What FROM reads.
ghost use Rattle.std.specs.Prelude.{◌≡◌, ℕ, List as Items, ◌∷◌, ◌++◌, [], map, IfOk, OnOk};
ghost use Rattle.perm_catalog.specs.Sound.{IsSound};
ghost use Rattle.name_meaning.specs.Froms.{FromMeant, from_all, in_from, join_item, joined_item, read_of, read_query};
ghost use Rattle.name_meaning.specs.Meanings.{query_means_at};
ghost use Rattle.name_meaning.specs.Trees.{from_item_of, from_of, join_of, query_of, source_of};
ghost use Rattle.name_seen_parts.specs.Named.{scopes_of};
ghost use Rattle.name_seen_parts.specs.Standing.{around_beside, around_of};
ghost use Rattle.name_seen_cores.specs.from.Queried.{FromSeen, FromWhole};
ghost use Rattle.name_seen_cores.specs.declared.from.facts.Facts.{Facts as Gathered};
ghost use Rattle.name_seen_cores.specs.from.Readings.{ItemSeen, KeepsNames, ReadSeen};
ghost use Rattle.name_seen.specs.Joining.{JoinSeen};

use crate::cores::condition_seen;
use crate::queries::query_seen;
use name_meaning::Scope;
use name_seen_cores::{Facts, Reading, put_item, read_named, read_shown};
use name_seen_parts::{Around, Refusal, add_items, inside, is_lateral, no_items};
use perm_catalog::Names;
use sql_tree::{FromItem, FromSource, FromTree, JoinStep, QueryTree, ScopeMark};

/// The scope of all items of FROM, whose rows aren't grouped, or its first break. The facts of what is read come behind
/// those so far.
#[cycle(seen)]
pub fn from_scope(
    sources: &[FromTree],
    around: &Around,
    facts: &mut Facts,
) -> Result<Scope, Refusal>
    requires { IsSound around.now.catalog.now }
    ensures { FromSeen (from_all (scopes_of around.now.outer.now)
        (map (from_of around.now.catalog.now) sources.now)) [] facts.old facts.new result }
{
    let mut scope = no_items(around.alloc);
    let mut names = Names::none(around.alloc);
    for source in sources {
        let own = source_items(source, &mut names, around, facts)?;
        add_items(around.alloc, &mut scope, &own)?;
    }
    Ok(scope)
}

/// The items of one source with its joins, behind items of these names, to which theirs come.
#[cycle(seen)]
fn source_items(
    tree: &FromTree,
    names: &mut Names,
    around: &Around,
    facts: &mut Facts,
) -> Result<Scope, Refusal>
    requires { IsSound around.now.catalog.now }
    ensures seen { FromSeen ((from_of around.now.catalog.now tree.now).means
        (scopes_of around.now.outer.now) names.old.known.keys) names.old.known.keys facts.old facts.new
        result }
    ensures named { IfOk result (λ scope. names.new.known.keys ≡ names.old.known.keys ++ scope.items) }
{
    let mut scope = no_items(around.alloc);
    from_item(&tree.first, names, &mut scope, around, facts)?;
    for step in tree.joins.as_slice() {
        join_seen(step, names, &mut scope, around, facts)?;
    }
    Ok(scope)
}

/// One more join of a source, whose items so far are in scope. Its condition sees the items up to its own.
#[cycle(seen)]
fn join_seen(
    step: &JoinStep,
    names: &mut Names,
    scope: &mut Scope,
    around: &Around,
    facts: &mut Facts,
) -> Result<(), Refusal>
    requires { IsSound around.now.catalog.now }
    ensures seen { (left : FromMeant) (earlier : Items (Items ℕ)) (before : Gathered)
        → names.old.known.keys ≡ earlier ++ scope.old.items
        → FromWhole left earlier before facts.old scope.old →
        JoinSeen (join_item (scopes_of around.now.outer.now) left
        (join_of around.now.catalog.now step.now)
        (joined_item (scopes_of around.now.outer.now) left (join_of around.now.catalog.now step.now)))
        earlier before facts.new scope.new result }
    ensures named { OnOk result (KeepsNames names.old.known.keys names.new.known.keys scope.old scope.new) }
{
    if is_lateral(step.word) {
        return lateral_item(&step.item, names, scope, around, facts);
    }
    from_item(&step.item, names, scope, around, facts)?;
    condition_seen(&step.condition, scope, false, around, facts)
}

/// One more item in scope, whose subquery sees those in scope, behind items of these names, or its first break.
#[cycle(seen)]
fn lateral_item(
    item: &FromItem,
    names: &mut Names,
    scope: &mut Scope,
    around: &Around,
    facts: &mut Facts,
) -> Result<(), Refusal>
    requires { IsSound around.now.catalog.now }
    ensures seen { ItemSeen ((from_item_of around.now.catalog.now item.now).means
        (around_beside (scope.old ∷ scopes_of around.now.outer.now)) names.old.known.keys)
        scope.old facts.old facts.new scope.new result }
    ensures named { OnOk result (KeepsNames names.old.known.keys names.new.known.keys scope.old scope.new) }
{
    let reading = read_beside(item, &*scope, around)?;
    put_item(item, names, scope, around, reading, facts)
}

/// What an item reads whose subquery sees this scope, or its first break.
#[cycle(seen)]
fn read_beside(item: &FromItem, scope: &Scope, around: &Around) -> Result<Reading, Refusal>
    requires { IsSound around.now.catalog.now }
    ensures { ReadSeen (read_of around.now.catalog.now
        (around_beside (scope.now ∷ scopes_of around.now.outer.now))
        (source_of around.now.catalog.now item.now.source)) result }
{
    let scopes = inside(&*scope, false, &*around.outer)?;
    read_source(&item.source, &(&*around).lateral(&scopes))
}

/// One more item in scope, behind items of these names, or its first break.
#[cycle(seen)]
fn from_item(
    item: &FromItem,
    names: &mut Names,
    scope: &mut Scope,
    around: &Around,
    facts: &mut Facts,
) -> Result<(), Refusal>
    requires { IsSound around.now.catalog.now }
    ensures seen { ItemSeen ((from_item_of around.now.catalog.now item.now).means
        (in_from (scopes_of around.now.outer.now)) names.old.known.keys)
        scope.old facts.old facts.new scope.new result }
    ensures named { OnOk result (KeepsNames names.old.known.keys names.new.known.keys scope.old scope.new) }
{
    let reading = read_source(&item.source, &around.in_from())?;
    put_item(item, names, scope, around, reading, facts)
}

/// What an item reads whose subquery stands there, or its first break.
#[cycle(seen)]
pub fn read_source(source: &FromSource, around: &Around) -> Result<Reading, Refusal>
    requires { IsSound around.now.catalog.now }
    ensures { ReadSeen (read_of around.now.catalog.now (around_of around.now)
        (source_of around.now.catalog.now source.now)) result }
{
    match source {
        FromSource::Named(name) => read_named(around.alloc, around.catalog, name),
        FromSource::Inner(query) => read_inner(query.get(), around),
    }
}

/// What a subquery gives to FROM, or its first break.
#[cycle(seen)]
fn read_inner(query: &QueryTree, around: &Around) -> Result<Reading, Refusal>
    requires { IsSound around.now.catalog.now }
    ensures { ReadSeen (read_query (query_means_at (query_of around.now.catalog.now query.now)
        (around_of around.now))) result }
{
    match query_seen(query, around) {
        Ok(shown) => Ok(read_shown(around.alloc, shown)?),
        Err(refusal) => Err(refusal),
    }
}
