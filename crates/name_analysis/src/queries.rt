//! Statements over a query.
ghost use Rattle.std.specs.Prelude.{◌≡◌, []};
ghost use Rattle.name_seen_parts.specs.Standing.{around_of};
ghost use Rattle.name_meaning.specs.Meanings.{query_means_at};
ghost use Rattle.name_meaning.specs.Statements as words;
ghost use Rattle.name_meaning.specs.Trees.{query_of};
ghost use Rattle.name_meaning.specs.declared.answer.Resolved.TheVariants as answered;
ghost use Rattle.perm_catalog.specs.Sound.{IsSound};
ghost use Rattle.name_seen_cores.specs.from.Queried.{QueryWhole};
ghost use Rattle.sql_tree.specs.declared.name.Name.{Name as Called};
ghost use Rattle.sql_tree.specs.declared.statement.StatementBody.TheVariants as asked;
ghost use Rattle.name_statements.specs.Resolves.{ResolvesBody, ResolvesBy, WholeSeen};

use name_made::query_made;
use name_made_parts::keys_of;
use name_meaning::Resolved;
use name_seen::query_seen;
use name_seen_cores::QueryShown;
use name_seen_parts::{Around, Refusal, Scopes};
use name_statements::{
    Whole, answer_of, around_alone, entry_of, gathered_within, let_query_go, repeats_break,
    stored_break, table_of, view_of, whole_with, within,
};
use perm_catalog::{Catalog, ViewEntry};
use sql_tree::{Name, QueryTree};
use std::alloc::Global;

/// SELECT.
pub(crate) fn select(
    alloc: Global,
    catalog: &Catalog,
    query: QueryTree,
) -> Result<Resolved, Refusal>
    requires { IsSound catalog.now }
    ensures { ResolvesBody catalog.now (asked.Select query) result }
{
    let resolved = selected(alloc, catalog, &query);
    let_query_go(query);
    resolved
}

fn selected(alloc: Global, catalog: &Catalog, query: &QueryTree) -> Result<Resolved, Refusal>
    requires { IsSound catalog.now }
    ensures { ResolvesBody catalog.now (asked.Select query.now) result }
{
    let outermost = Scopes::Outermost;
    let around = around_alone(alloc, catalog, &outermost);
    let shown = query_seen(query, &around)?;
    let whole = whole_of(query, &around, shown)?;
    Ok(Resolved::Select {
        answer: answer_of(whole),
    })
}

/// EXPLAIN.
pub(crate) fn explain(
    alloc: Global,
    catalog: &Catalog,
    query: QueryTree,
) -> Result<Resolved, Refusal>
    requires { IsSound catalog.now }
    ensures { ResolvesBody catalog.now (asked.Explain query) result }
{
    let resolved = explained(alloc, catalog, &query);
    let_query_go(query);
    resolved
}

fn explained(alloc: Global, catalog: &Catalog, query: &QueryTree) -> Result<Resolved, Refusal>
    requires { IsSound catalog.now }
    ensures { ResolvesBody catalog.now (asked.Explain query.now) result }
{
    let outermost = Scopes::Outermost;
    let around = around_alone(alloc, catalog, &outermost);
    let shown = query_seen(query, &around)?;
    let whole = whole_of(query, &around, shown)?;
    Ok(Resolved::Explain {
        answer: answer_of(whole),
    })
}

/// CREATE VIEW.
pub(crate) fn create_view(
    alloc: Global,
    catalog: &Catalog,
    view: Name,
    query: QueryTree,
) -> Result<Resolved, Refusal>
    requires sound { IsSound catalog.now }
    requires free { words.taken catalog.now view ≡ [] }
    ensures { ResolvesBody catalog.now (asked.CreateView view query) result }
{
    let entry = view_made(alloc, catalog, &query);
    let_query_go(query);
    view_of(view, entry)
}

/// What a view of the query is, whatever its name.
fn view_made(alloc: Global, catalog: &Catalog, query: &QueryTree) -> Result<ViewEntry, Refusal>
    requires { IsSound catalog.now }
    ensures { (view : Called) → words.taken catalog.now view ≡ []
        → ResolvesBy catalog.now (asked.CreateView view query.now) (answered.CreateView view.text) result }
{
    let outermost = Scopes::Outermost;
    let around = around_alone(alloc, catalog, &outermost);
    let shown = query_seen(query, &around)?;
    let repeats = repeats_break(alloc, query.at, shown.columns.as_slice());
    let named = within(shown, repeats)?;
    let whole = whole_of(query, &around, named)?;
    let entry = entry_of(alloc, whole)?;
    Ok(entry)
}

/// CREATE TABLE AS.
pub(crate) fn create_table_as(
    alloc: Global,
    catalog: &Catalog,
    table: Name,
    query: QueryTree,
) -> Result<Resolved, Refusal>
    requires sound { IsSound catalog.now }
    requires free { words.taken catalog.now table ≡ [] }
    ensures { ResolvesBody catalog.now (asked.CreateTableAs table query) result }
{
    let whole = table_made(alloc, catalog, &table, &query);
    let_query_go(query);
    table_of(table, whole)
}

/// The query whole, whose columns are those of a table of this name.
fn table_made(
    alloc: Global,
    catalog: &Catalog,
    table: &Name,
    query: &QueryTree,
) -> Result<Whole, Refusal>
    requires sound { IsSound catalog.now }
    requires free { words.taken catalog.now table.now ≡ [] }
    ensures { ResolvesBy catalog.now (asked.CreateTableAs table.now query.now)
        (λ whole. answered.CreateTableAs table.now.text whole.columns whole.answer whole.places) result }
{
    let outermost = Scopes::Outermost;
    let around = around_alone(alloc, catalog, &outermost);
    let shown = query_seen(query, &around)?;
    let stored = stored_break(alloc, table, query.at, shown.columns.as_slice());
    let fitting = within(shown, stored)?;
    whole_of(query, &around, fitting)
}

/// A query that was seen to break nothing, made, or the first limit that it passes.
fn whole_of(query: &QueryTree, around: &Around, shown: QueryShown) -> Result<Whole, Refusal>
    requires sound { IsSound around.now.catalog.now }
    requires seen { QueryWhole
        (query_means_at (query_of around.now.catalog.now query.now) (around_of around.now)) shown }
    ensures { WholeSeen query.now.at
        (query_means_at (query_of around.now.catalog.now query.now) (around_of around.now)) result }
{
    match gathered_within(query, around) {
        Ok(gathered) => {
            let order = query.order.as_slice();
            let keys = keys_of(around.alloc, shown.columns.as_slice(), order);
            let made = query_made(query, &[], around);
            whole_with(query, around, shown, keys, made, gathered)
        }
        Err(refusal) => {
            drop(shown);
            Err(refusal)
        }
    }
}
