ghost use Rattle.std.specs.Prelude.{◌≡◌, IsTrue};
ghost use Rattle.perm_catalog.specs.Changes.{is_free};
ghost use Rattle.statement_meaning.specs.Answers.{IsTurn};
ghost use Rattle.statement_meaning.specs.Turns.{create_table, view_created};

use crate::changes::refusing::refused;
use crate::changes::text::text_of;
use perm_catalog::{Catalog, Column, ViewEntry};
use perm_values::{Bytes, Chars, Copyable, List};
use statement_meaning::StepRefusal;
use std::alloc::Global;

/// CREATE TABLE at an offset, of a free name. Each statement makes its text before it changes the catalog, so that a
/// refused one leaves it as it was.
pub fn create_table(
    alloc: Global,
    catalog: &mut Catalog,
    at: usize,
    name: &Chars,
    columns: &List<Column>,
) -> Result<Bytes, StepRefusal>
    requires { IsTrue (is_free catalog.old name.now) }
    ensures { IsTurn (create_table catalog.old at name.now columns.now) catalog.old catalog.new result }
{
    let text = text_of(alloc, b"CREATE TABLE\n")?;
    let made = columns.copy(alloc)?;
    match catalog.create(alloc, name, made, List::new(alloc), None) {
        Ok(()) => Ok(text),
        Err(refusal) => Err(refused(refusal, at)),
    }
}

/// CREATE VIEW, of a free name.
pub fn create_view(
    alloc: Global,
    catalog: &mut Catalog,
    name: &Chars,
    entry: &ViewEntry,
) -> Result<Bytes, StepRefusal>
    requires { IsTrue (is_free catalog.old name.now) }
    ensures { IsTurn (view_created catalog.old name.now entry.now) catalog.old catalog.new result }
{
    let text = text_of(alloc, b"CREATE VIEW\n")?;
    let made = entry.copy(alloc)?;
    catalog.add_view(alloc, name, made)?;
    Ok(text)
}
