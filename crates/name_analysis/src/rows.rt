//! INSERT.
ghost use Rattle.std.specs.Prelude.{◌≡◌, [], IfOk, flat_map, length};
ghost use Rattle.name_seen_parts.specs.Standing.{surroundings};
ghost use Rattle.name_meaning.specs.Meanings.{means_at};
ghost use Rattle.name_meaning.specs.Statements as words;
ghost use Rattle.name_meaning.specs.Trees.{part_of};
ghost use Rattle.perm_catalog.specs.Columns.{column_kinds};
ghost use Rattle.perm_catalog.specs.Sound.{IsSound};
ghost use Rattle.name_meaning.specs.declared.answer.Resolved.TheVariants as answered;
ghost use Rattle.sql_tree.specs.declared.statement.StatementBody.TheVariants as asked;
ghost use Rattle.name_statements.specs.Resolves.{ResolvesBody, ResolvesBy};

use bag_algebra::Expr;
use name_made::made;
use name_meaning::{Break, Resolved, Rule, Within};
use name_seen_parts::{Here, Refusal, Scopes};
use name_statements::{
    alone, insert_of, let_found_go, let_rows_go, rows_break, with_row, with_value,
};
use perm_catalog::{Catalog, Column};
use perm_values::{List, NoMemory};
use sql_tree::{ExprTree, Name, ValuesRow};
use std::alloc::Global;

/// INSERT.
pub(crate) fn insert(
    alloc: Global,
    catalog: &Catalog,
    table: Name,
    rows: List<ValuesRow>,
) -> Result<Resolved, Refusal>
    requires { IsSound catalog.now }
    ensures { ResolvesBody catalog.now (asked.Insert table rows) result }
{
    let made = inserted(alloc, catalog, &table, rows.as_slice());
    let_rows_go(rows);
    insert_of(table, made)
}

/// The rows that are inserted, or their first break.
fn inserted(
    alloc: Global,
    catalog: &Catalog,
    table: &Name,
    rows: &[ValuesRow],
) -> Result<List<List<Expr>>, Refusal>
    requires { IsSound catalog.now }
    ensures { ResolvesBy catalog.now (asked.Insert table.now rows.now) (answered.Insert table.now.text)
        result }
{
    match catalog.table(&table.text) {
        None => Err(Refusal::Break(Break {
            rule: Rule::UnknownRelation,
            at: table.at,
        })),
        Some(entry) => {
            let columns = entry.columns.as_slice();
            rows_break(alloc, catalog, columns, rows)?;
            Ok(rows_made(alloc, catalog, columns, rows)?)
        }
    }
}

fn rows_made(
    alloc: Global,
    catalog: &Catalog,
    columns: &[Column],
    rows: &[ValuesRow],
) -> Result<List<List<Expr>>, NoMemory>
    requires sound { IsSound catalog.now }
    requires whole { flat_map (words.row_breaks catalog.now (column_kinds columns.now)) rows.now ≡ [] }
    ensures { IfOk result (λ made. made ≡ words.rows_made catalog.now (column_kinds columns.now) rows.now) }
{
    let outermost = Scopes::Outermost;
    let here = Here {
        alloc,
        catalog: &*catalog,
        scopes: &outermost,
        standing: alone(),
    };
    let mut made = List::new(alloc);
    for row in rows {
        made = with_row(made, row_made(&here, columns, row))?;
    }
    Ok(made)
}

fn row_made(here: &Here, columns: &[Column], row: &ValuesRow) -> Result<List<Expr>, NoMemory>
    requires sound { IsSound here.now.catalog.now }
    requires alone { surroundings here.now ≡ words.bare [] }
    requires whole { words.row_breaks here.now.catalog.now (column_kinds columns.now) row.now ≡ [] }
    ensures { IfOk result (λ made.
        made ≡ words.row_made here.now.catalog.now (column_kinds columns.now) row.now.values) }
{
    values_made(here, columns, row.values.as_slice())
}

fn values_made(here: &Here, columns: &[Column], values: &[ExprTree]) -> Result<List<Expr>, NoMemory>
    requires sound { IsSound here.now.catalog.now }
    requires alone { surroundings here.now ≡ words.bare [] }
    requires whole { words.values_breaks here.now.catalog.now (column_kinds columns.now) values.now ≡ [] }
    ensures { IfOk result (λ made.
        made ≡ words.row_made here.now.catalog.now (column_kinds columns.now) values.now) }
{
    let mut made = List::new(here.alloc);
    for at in 0..values.len().min(columns.len()) {
        made = with_value(made, value_made(here, &columns[at], &values[at]))?;
    }
    Ok(made)
}

/// The value at the kind of its column.
fn value_made(here: &Here, column: &Column, tree: &ExprTree) -> Result<Expr, NoMemory>
    requires sound { IsSound here.now.catalog.now }
    requires whole { (means_at (part_of here.now.catalog.now tree.now) (surroundings here.now)).breaks ≡ [] }
    ensures { IfOk result (λ e. e ≡ words.made_alone column.now.kind
        (means_at (part_of here.now.catalog.now tree.now) (surroundings here.now))) }
{
    let mut found = Within::nothing(here.alloc);
    let value = made(tree, column.kind, here, &mut found);
    let_found_go(found);
    value
}
