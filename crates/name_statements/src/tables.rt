//! Statements without a query and without values: CREATE TABLE and COPY.
ghost use Rattle.std.specs.Prelude.{◌≡◌, [], IfOk};
ghost use Rattle.name_meaning.specs.Statements as words;
ghost use Rattle.perm_catalog.specs.Contents.{Contents};
ghost use Rattle.sql_tree.specs.declared.statement.StatementBody.TheVariants as asked;
ghost use Rattle.name_statements.specs.Resolves.{ResolvesBody, body_breaks};

use name_meaning::{Break, Resolved, Rule};
use name_seen_parts::{Refusal, kinds_of_columns};
use perm_catalog::{Catalog, Column};
use perm_values::{Chars, List, NoMemory};
use sql_tree::{ColumnDef, Name};
use std::alloc::Global;

/// CREATE TABLE, of a statement that breaks nothing.
pub fn create_table(
    alloc: Global,
    table: Name,
    columns: List<ColumnDef>,
) -> Result<Resolved, Refusal>
    ensures { (c : Contents) → body_breaks c (asked.CreateTable table columns) ≡ []
        → ResolvesBody c (asked.CreateTable table columns) result }
{
    let columns = defined_columns(alloc, columns)?;
    Ok(Resolved::CreateTable {
        name: text_of(table),
        columns,
    })
}

/// The name as it is written.
pub fn text_of(name: Name) -> Chars
    ensures { result ≡ name.text }
{
    let Name { text, at: _at } = name;
    text
}

fn defined_columns(alloc: Global, columns: List<ColumnDef>) -> Result<List<Column>, NoMemory>
    ensures { IfOk result (λ defined. defined ≡ words.defined_columns columns) }
{
    let mut defined = List::with_room(alloc, columns.len())?;
    for column in columns.into_vec() {
        defined.push(defined_column(column))?;
    }
    Ok(defined)
}

fn defined_column(column: ColumnDef) -> Column
    ensures { result ≡ record { name = column.name.text; kind = column.kind } }
{
    let ColumnDef { name, kind } = column;
    Column {
        name: text_of(name),
        kind,
    }
}

/// COPY.
pub fn copy(
    alloc: Global,
    catalog: &Catalog,
    table: Name,
    file: Chars,
    header: bool,
    null_field: Chars,
) -> Result<Resolved, Refusal>
    ensures { ResolvesBody catalog.now (asked.Copy table file header null_field) result }
{
    match catalog.table(&table.text) {
        None => Err(Refusal::Break(Break {
            rule: Rule::UnknownRelation,
            at: table.at,
        })),
        Some(entry) => {
            let kinds = kinds_of_columns(alloc, entry.columns.as_slice())?;
            Ok(Resolved::Copy {
                name: text_of(table),
                kinds,
                file,
                null_field,
                header,
            })
        }
    }
}
