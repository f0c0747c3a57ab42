//! What a statement breaks by its own names. Want of memory is no answer of these calls: where they take some, they do without
//! it if need be.
ghost use Rattle.std.specs.Prelude.{◌≡◌, ◌++◌};
ghost use Rattle.name_seen_parts.specs.Seen.{first_or};
ghost use Rattle.name_meaning.specs.Statements as words;
ghost use Rattle.sql_tree.specs.declared.statement.StatementBody.TheVariants as asked;
ghost use Rattle.name_statements.specs.Own.{own_breaks};
ghost use Rattle.name_statements.specs.Resolves.{body_breaks};

use crate::seen::{repeated_columns, table_limit, taken, unknown_table, unknown_view, used};
use name_meaning::Break;
use perm_catalog::Catalog;
use sql_tree::{ColumnDef, Name, StatementBody};
use std::alloc::Global;

/// The first rule that the names of what the statement makes, changes or drops break.
pub fn own_break(alloc: Global, catalog: &Catalog, body: &StatementBody) -> Result<(), Break>
    ensures { result ≡ first_or (own_breaks catalog.now body.now) tt }
{
    match body {
        StatementBody::CreateTable { table, columns } => {
            table_break(alloc, catalog, table, columns.as_slice())
        }
        StatementBody::CreateTableAs { table, .. } => taken(catalog, table),
        StatementBody::CreateView { view, .. } => taken(catalog, view),
        StatementBody::Copy { table, .. }
        | StatementBody::Insert { table, .. }
        | StatementBody::Delete { table, .. }
        | StatementBody::ShowFresh { table }
        | StatementBody::Impact { table, .. } => unknown_table(catalog, table),
        StatementBody::DropTable { table } => drop_table_break(catalog, table),
        StatementBody::DropView { view } => drop_view_break(catalog, view),
        StatementBody::Select { .. } | StatementBody::Explain { .. } => Ok(()),
    }
}

fn table_break(
    alloc: Global,
    catalog: &Catalog,
    table: &Name,
    columns: &[ColumnDef],
) -> Result<(), Break>
    ensures { result ≡ first_or (body_breaks catalog.now (asked.CreateTable table.now columns.now)) tt }
{
    taken(catalog, table)?;
    repeated_columns(alloc, columns)?;
    table_limit(table, columns.len())
}

fn drop_table_break(catalog: &Catalog, table: &Name) -> Result<(), Break>
    ensures { result ≡ first_or
        (words.unknown_table catalog.now table.now ++ words.used catalog.now table.now) tt }
{
    unknown_table(catalog, table)?;
    used(catalog, table)
}

fn drop_view_break(catalog: &Catalog, view: &Name) -> Result<(), Break>
    ensures { result ≡ first_or
        (words.unknown_view catalog.now view.now ++ words.used catalog.now view.now) tt }
{
    unknown_view(catalog, view)?;
    used(catalog, view)
}
