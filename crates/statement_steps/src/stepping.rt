ghost use Rattle.std.specs.Prelude.{◌≡◌, IsTrue, false};
ghost use Rattle.perm_io.specs.Counts.{next_count};
ghost use Rattle.perm_io.specs.Told.{FilesTold};
ghost use Rattle.statement_meaning.specs.Answers.{begins, over};
ghost use Rattle.statement_meaning.specs.Asking.{asks};
ghost use Rattle.statement_meaning.specs.Carrying.{IsCarriedOut};
ghost use Rattle.statement_meaning.specs.Ready.{IsReady};
ghost use Rattle.statement_steps.specs.Running.{KeepsRun};
ghost use Rattle.statement_steps.specs.Settling.{IsSettled};

use crate::answering::{create_table_as, select};
use crate::changes::{
    NewTable, RowFile, copy, create_table, create_view, delete, drop_table, drop_view, insert,
};
use crate::fresh::show_fresh;
use crate::losing::impact;
use crate::runner::Runner;
use name_meaning::Resolved;
use perm_catalog::Catalog;
use perm_io::Files;
use perm_values::Bytes;
use sql_printer::explain;
use statement_meaning::StepRefusal;
use std::alloc::Global;

/// Carries out a resolved statement at an offset, which can be, and gives its text. COPY begins its file, and
/// no other statement begins any. After a refusal the catalog is as before. A query is run by the runner,
/// that of CREATE TABLE AS and what answers an IMPACT too, and no other statement changes that.
pub fn step<F: Files>(
    alloc: Global,
    catalog: &mut Catalog,
    files: &mut F,
    at: usize,
    statement: &Resolved,
    runner: &mut Runner,
) -> Result<Bytes, StepRefusal>
    requires { IsReady catalog.old statement.now }
    ensures done { IsCarriedOut (asks catalog.old at statement.now) catalog.old catalog.new result
        (over (F.told files.old) (F.told files.new)) }
    ensures begun { IsTrue (begins (asks catalog.old at statement.now))
        → (F.told files.new).begun ≡ next_count (F.told files.old).begun }
    ensures unbegun { begins (asks catalog.old at statement.now) ≡ false → files.new ≡ files.old }
    ensures ran { KeepsRun catalog.old statement.now result runner.old runner.new }
{
    match statement {
        Resolved::Copy {
            name,
            kinds,
            file,
            null_field,
            header,
        } => {
            let file = RowFile {
                name: file,
                kinds: kinds.as_slice(),
                null_field,
                header: *header,
            };
            copy(alloc, catalog, files, at, name, &file)
        }
        Resolved::CreateTable { .. }
        | Resolved::CreateTableAs { .. }
        | Resolved::CreateView { .. }
        | Resolved::Insert { .. }
        | Resolved::Delete { .. }
        | Resolved::DropTable { .. }
        | Resolved::DropView { .. }
        | Resolved::Select { .. }
        | Resolved::Explain { .. }
        | Resolved::ShowFresh { .. }
        | Resolved::Impact { .. } => settle(alloc, catalog, at, statement, runner),
    }
}

/// Carries out a resolved statement that begins no file, and is refused for no cause that lies in one: over any files,
/// which stay as they are.
fn settle(
    alloc: Global,
    catalog: &mut Catalog,
    at: usize,
    statement: &Resolved,
    runner: &mut Runner,
) -> Result<Bytes, StepRefusal>
    requires ready { IsReady catalog.old statement.now }
    requires unasked { begins (asks catalog.old at statement.now) ≡ false }
    ensures done { (told : FilesTold) → IsCarriedOut (asks catalog.old at statement.now)
        catalog.old catalog.new result (over told told) }
    ensures ran { KeepsRun catalog.old statement.now result runner.old runner.new }
{
    settled(alloc, catalog, at, statement, runner)
}

/// The same by what each statement does.
fn settled(
    alloc: Global,
    catalog: &mut Catalog,
    at: usize,
    statement: &Resolved,
    runner: &mut Runner,
) -> Result<Bytes, StepRefusal>
    requires ready { IsReady catalog.old statement.now }
    requires unasked { begins (asks catalog.old at statement.now) ≡ false }
    ensures turn { IsSettled (asks catalog.old at statement.now) catalog.old catalog.new result }
    ensures ran { KeepsRun catalog.old statement.now result runner.old runner.new }
{
    match statement {
        Resolved::CreateTable { name, columns } => create_table(alloc, catalog, at, name, columns),
        Resolved::CreateTableAs {
            name,
            columns,
            answer,
            places,
        } => {
            let table = NewTable {
                name,
                columns,
                answer,
                places,
            };
            create_table_as(alloc, catalog, at, &table, runner)
        }
        Resolved::CreateView { name, entry } => create_view(alloc, catalog, name, entry),
        Resolved::Insert { name, rows } => insert(alloc, catalog, at, name, rows),
        Resolved::Delete { name, condition } => delete(alloc, catalog, at, name, condition),
        Resolved::DropTable { name } => drop_table(alloc, catalog, name),
        Resolved::DropView { name } => drop_view(alloc, catalog, name),
        Resolved::Select { answer } => select(alloc, catalog, at, answer, runner),
        Resolved::Explain { answer } => Ok(explain(alloc, catalog, answer)?),
        Resolved::ShowFresh { name } => Ok(show_fresh(alloc, catalog, name)?),
        Resolved::Impact {
            name,
            condition,
            answer,
        } => impact(alloc, catalog, at, name, condition, answer, runner),
        Resolved::Copy { .. } => unreachable!(),
    }
}
