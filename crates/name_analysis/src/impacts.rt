//! IMPACT.
ghost use Rattle.std.specs.Prelude.{◌≡◌, []};
ghost use Rattle.name_seen_parts.specs.Standing.{around_of};
ghost use Rattle.name_meaning.specs.Meanings.{query_means_at};
ghost use Rattle.name_meaning.specs.Statements as words;
ghost use Rattle.name_meaning.specs.Trees.{query_of};
ghost use Rattle.perm_catalog.specs.Sound.{IsSound};
ghost use Rattle.name_seen_cores.specs.from.Queried.{QueryWhole};
ghost use Rattle.sql_tree.specs.declared.statement.StatementBody.TheVariants as asked;
ghost use Rattle.name_statements.specs.Resolves.{AskedSeen, ResolvesBody};

use crate::conditions::deleted;
use name_made::query_made;
use name_made_parts::keys_of;
use name_meaning::Resolved;
use name_seen::query_seen;
use name_seen_cores::QueryShown;
use name_seen_parts::{Around, Refusal, Scopes};
use name_statements::{
    Whole, gathered_within, impact_of, let_condition_go, let_query_go, monotone_made, monotone_with,
};
use perm_catalog::Catalog;
use sql_tree::{ExprTree, Name, QueryTree};
use std::alloc::Global;

/// IMPACT.
pub(crate) fn impact(
    alloc: Global,
    catalog: &Catalog,
    table: Name,
    condition: Option<ExprTree>,
    query: QueryTree,
) -> Result<Resolved, Refusal>
    requires { IsSound catalog.now }
    ensures { ResolvesBody catalog.now (asked.Impact table condition query) result }
{
    let doomed = deleted(alloc, catalog, &table, &condition);
    let_condition_go(condition);
    match doomed {
        Ok(condition) => {
            let whole = asked_about(alloc, catalog, &query);
            let_query_go(query);
            impact_of(table, condition, whole)
        }
        Err(first) => {
            drop(table);
            let_query_go(query);
            Err(first)
        }
    }
}

/// The query that is asked about, whole, or its first break.
fn asked_about(alloc: Global, catalog: &Catalog, query: &QueryTree) -> Result<Whole, Refusal>
    requires { IsSound catalog.now }
    ensures { AskedSeen query.now.at (words.impact_query catalog.now query.now) result }
{
    let outermost = Scopes::Outermost;
    let around = Around {
        alloc,
        catalog: &*catalog,
        outer: &outermost,
        may_ask: false,
    };
    let shown = query_seen(query, &around)?;
    monotone_of(query, &around, shown)
}

/// A query that was seen to break nothing, made where it is monotone, or the first limit that it passes.
fn monotone_of(query: &QueryTree, around: &Around, shown: QueryShown) -> Result<Whole, Refusal>
    requires sound { IsSound around.now.catalog.now }
    requires seen { QueryWhole
        (query_means_at (query_of around.now.catalog.now query.now) (around_of around.now)) shown }
    ensures { AskedSeen query.now.at
        (query_means_at (query_of around.now.catalog.now query.now) (around_of around.now)) result }
{
    let made = query_made(query, &[], around);
    match monotone_made(query.at, made) {
        Ok(made) => {
            let gathered = gathered_within(query, around);
            let order = query.order.as_slice();
            let keys = keys_of(around.alloc, shown.columns.as_slice(), order);
            monotone_with(query, around, shown, keys, made, gathered)
        }
        Err(refusal) => {
            drop(shown);
            Err(refusal)
        }
    }
}
