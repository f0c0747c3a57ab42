//! The statement resolved.
ghost use Rattle.std.specs.Prelude.{◌≡◌, []};
ghost use Rattle.name_meaning.specs.Statements.{breaks, resolved};
ghost use Rattle.perm_catalog.specs.Sound.{IsSound};
ghost use Rattle.name_statements.specs.Own.{TellsFirst, own_breaks};
ghost use Rattle.name_statements.specs.Resolves.{Resolves};

use crate::conditions::delete;
use crate::impacts::impact;
use crate::queries::{create_table_as, create_view, explain, select};
use crate::rows::insert;
use name_meaning::Resolved;
use name_seen_parts::Refusal;
use name_statements::{copy, create_table, let_statement_go, own_break, text_of};
use perm_catalog::Catalog;
use sql_tree::{Statement, StatementBody};
use std::alloc::Global;

/// The statement with its names looked up and its kinds settled, exactly where it breaks no rule of names and kinds and
/// keeps within the limits; otherwise the first break. `NoMemory` comes only for want of memory, and never where the
/// statement breaks a rule by its own names, those of what it makes, changes or drops.
pub fn resolve(alloc: Global, catalog: &Catalog, statement: Statement) -> Result<Resolved, Refusal>
    requires { IsSound catalog.now }
    ensures resolves { Resolves (breaks catalog.now statement) (resolved catalog.now statement) result }
    ensures due { TellsFirst (own_breaks catalog.now statement.body) result }
{
    match own_break(alloc, catalog, &statement.body) {
        Ok(()) => behind_names(alloc, catalog, statement),
        Err(first) => {
            let_statement_go(statement);
            Err(Refusal::Break(first))
        }
    }
}

/// The same of a statement whose own names break nothing.
fn behind_names(alloc: Global, catalog: &Catalog, statement: Statement) -> Result<Resolved, Refusal>
    requires sound { IsSound catalog.now }
    requires own { own_breaks catalog.now statement.body ≡ [] }
    ensures { Resolves (breaks catalog.now statement) (resolved catalog.now statement) result }
{
    let Statement { body, at: _at } = statement;
    match body {
        StatementBody::CreateTable { table, columns } => create_table(alloc, table, columns),
        StatementBody::CreateTableAs { table, query } => {
            create_table_as(alloc, catalog, table, query)
        }
        StatementBody::CreateView { view, query } => create_view(alloc, catalog, view, query),
        StatementBody::Copy {
            table,
            file,
            header,
            null_field,
        } => copy(alloc, catalog, table, file, header, null_field),
        StatementBody::Insert { table, rows } => insert(alloc, catalog, table, rows),
        StatementBody::Delete { table, condition } => delete(alloc, catalog, table, condition),
        StatementBody::DropTable { table } => Ok(Resolved::DropTable {
            name: text_of(table),
        }),
        StatementBody::DropView { view } => Ok(Resolved::DropView {
            name: text_of(view),
        }),
        StatementBody::Select { query } => select(alloc, catalog, query),
        StatementBody::Explain { query } => explain(alloc, catalog, query),
        StatementBody::ShowFresh { table } => Ok(Resolved::ShowFresh {
            name: text_of(table),
        }),
        StatementBody::Impact {
            table,
            condition,
            query,
        } => impact(alloc, catalog, table, condition, query),
    }
}
