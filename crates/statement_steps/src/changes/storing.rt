ghost use Rattle.std.specs.Prelude.{◌≡◌, IsTrue, Some, None};
ghost use Rattle.perm_catalog.specs.Changes.{is_free};
ghost use Rattle.statement_meaning.specs.Answers.{IsTurn};
ghost use Rattle.statement_meaning.specs.Turns.{store_answer};

use crate::changes::refusing::refused;
use crate::changes::text::counting;
use bag_algebra::Answer;
use perm_catalog::{Catalog, Column};
use perm_values::{Bytes, Chars, Copyable, List, Rows, both, four};
use statement_meaning::StepRefusal;
use std::alloc::Global;
use stored_provenance::store;

/// What CREATE TABLE AS makes a table of: its name and columns, the query, and the places of its provenance
/// columns, where it asks for provenance.
#[derive(Drop)]
pub struct NewTable<'a> {
    pub name: &'a Chars,
    pub columns: &'a List<Column>,
    pub answer: &'a Answer,
    pub places: &'a Option<List<usize>>,
}

/// CREATE TABLE AS at an offset, of a free name, where the query gives these rows, in their order. With
/// provenance the table remembers the query and what that reads.
pub fn store_answer(
    alloc: Global,
    catalog: &mut Catalog,
    at: usize,
    table: &NewTable,
    rows: &Rows,
) -> Result<Bytes, StepRefusal>
    requires { IsTrue (is_free catalog.old table.now.name.now) }
    ensures { IsTurn (store_answer catalog.old at table.now.name.now table.now.columns.now
        table.now.answer.now table.now.places.now rows.now) catalog.old catalog.new result }
{
    match table.places {
        None => store_plainly(alloc, catalog, at, table, rows),
        Some(places) => store_with_provenance(alloc, catalog, at, table, places, rows),
    }
}

fn store_plainly(
    alloc: Global,
    catalog: &mut Catalog,
    at: usize,
    table: &NewTable,
    rows: &Rows,
) -> Result<Bytes, StepRefusal>
    requires { IsTrue (is_free catalog.old table.now.name.now) }
    ensures { IsTurn (store_answer catalog.old at table.now.name.now table.now.columns.now
        table.now.answer.now None rows.now) catalog.old catalog.new result }
{
    let text = counting(alloc, b"CREATE TABLE AS ", rows.len())?;
    let (columns, held) = both(table.columns.copy(alloc), rows.copy(alloc))?;
    match catalog.create(alloc, table.name, columns, held, None) {
        Ok(()) => Ok(text),
        Err(refusal) => Err(refused(refusal, at)),
    }
}

fn store_with_provenance(
    alloc: Global,
    catalog: &mut Catalog,
    at: usize,
    table: &NewTable,
    places: &List<usize>,
    rows: &Rows,
) -> Result<Bytes, StepRefusal>
    requires { IsTrue (is_free catalog.old table.now.name.now) }
    ensures { IsTurn (store_answer catalog.old at table.now.name.now table.now.columns.now
        table.now.answer.now (Some places.now) rows.now) catalog.old catalog.new result }
{
    let text = counting(alloc, b"CREATE TABLE AS ", rows.len())?;
    let columns = table.columns.copy(alloc);
    let query = table.answer.query.copy(alloc);
    let held = rows.copy(alloc);
    let places = places.copy(alloc);
    let (columns, query, held, places) = four(columns, query, held, places)?;
    match store(alloc, catalog, table.name, columns, query, held, places) {
        Ok(()) => Ok(text),
        Err(refusal) => Err(refused(refusal, at)),
    }
}
