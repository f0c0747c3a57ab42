//! DELETE, and the condition of IMPACT.
ghost use Rattle.std.specs.Prelude.{◌≡◌, [], IfOk, Some};
ghost use Rattle.name_meaning.specs.Statements as words;
ghost use Rattle.perm_catalog.specs.Changes.{table_named};
ghost use Rattle.perm_catalog.specs.Sound.{IsSound};
ghost use Rattle.name_meaning.specs.declared.answer.Resolved.TheVariants as answered;
ghost use Rattle.sql_tree.specs.declared.statement.StatementBody.TheVariants as asked;
ghost use Rattle.name_statements.specs.Resolves.{ConditionSeen, ResolvesBody, ResolvesBy};

use bag_algebra::Expr;
use name_made::made;
use name_meaning::{Break, Resolved, Rule, Within};
use name_seen_parts::{Here, Refusal, Scopes, inside};
use name_statements::{
    alone, delete_break, delete_of, let_condition_go, let_found_go, table_scope,
};
use perm_catalog::{Catalog, TableEntry};
use perm_values::{Kind, NoMemory};
use sql_tree::{ExprTree, Name};
use std::alloc::Global;

/// DELETE.
pub(crate) fn delete(
    alloc: Global,
    catalog: &Catalog,
    table: Name,
    condition: Option<ExprTree>,
) -> Result<Resolved, Refusal>
    requires { IsSound catalog.now }
    ensures { ResolvesBody catalog.now (asked.Delete table condition) result }
{
    let made = deleted(alloc, catalog, &table, &condition);
    let_condition_go(condition);
    delete_of(table, made)
}

/// The condition that the deleted rows meet, or its first break.
pub(crate) fn deleted(
    alloc: Global,
    catalog: &Catalog,
    table: &Name,
    condition: &Option<ExprTree>,
) -> Result<Option<Expr>, Refusal>
    requires { IsSound catalog.now }
    ensures { ResolvesBy catalog.now (asked.Delete table.now condition.now) (answered.Delete table.now.text)
        result }
{
    match catalog.table(&table.text) {
        None => Err(Refusal::Break(Break {
            rule: Rule::UnknownRelation,
            at: table.at,
        })),
        Some(entry) => condition_of(alloc, catalog, table, entry, condition),
    }
}

/// The condition of DELETE made, or its first break.
fn condition_of(
    alloc: Global,
    catalog: &Catalog,
    table: &Name,
    entry: &TableEntry,
    condition: &Option<ExprTree>,
) -> Result<Option<Expr>, Refusal>
    requires { IsSound catalog.now }
    ensures { table_named catalog.now table.now.text ≡ Some entry.now
        → ConditionSeen catalog.now table.now condition.now entry.now result }
{
    delete_break(alloc, catalog, table, entry, condition)?;
    match condition {
        None => Ok(None),
        Some(tree) => Ok(Some(condition_made(alloc, catalog, table, entry, tree)?)),
    }
}

fn condition_made(
    alloc: Global,
    catalog: &Catalog,
    table: &Name,
    entry: &TableEntry,
    tree: &ExprTree,
) -> Result<Expr, NoMemory>
    requires sound { IsSound catalog.now }
    requires whole { words.delete_breaks catalog.now table.now (Some tree.now) entry.now ≡ [] }
    ensures { IfOk result (λ e. e ≡ words.condition_made catalog.now table.now tree.now entry.now) }
{
    let scope = table_scope(alloc, &table.text, entry.columns.as_slice())?;
    let outermost = Scopes::Outermost;
    let Ok(scopes) = inside(&scope, false, &outermost) else {
        drop(scope);
        return Err(NoMemory);
    };
    let mut found = Within::nothing(alloc);
    let here = Here {
        alloc,
        catalog: &*catalog,
        scopes: &scopes,
        standing: alone(),
    };
    let condition = made(tree, Kind::Boolean, &here, &mut found);
    let_found_go(found);
    drop(scope);
    condition
}
