//! What a node reads: a table's rows where they lie, or rows that were made for it.
ghost use Rattle.std.specs.Prelude.{◌≡◌, IfOk, [], ◌∷◌, length};
ghost use Rattle.perm_values.specs.Marked.{unmarked};
ghost use Rattle.bag_algebra.specs.Bags.{Bag};
ghost use Rattle.bag_algebra.specs.Outcome.{Good};
ghost use Rattle.bag_algebra.specs.TableRows.{rows_in};
ghost use Rattle.row_values.specs.Answers.{Gives};

use bag_algebra::Tables;
use perm_values::{Copyable, List, NoMemory, Row, Rows};
use row_values::ExecError;
use std::alloc::Global;
use std::marker::Model;

/// Rows that are read where they lie, or moved on.
#[derive(Drop)]
pub struct Input<'a> {
    held: Held<'a>,
}

#[derive(Drop)]
enum Held<'a> {
    Stored(&'a [Row]),
    Made(Rows),
}

impl<'a> Model for Input<'a> {
    ghost use Rattle.std.specs.Prelude.{List};
    ghost use Rattle.perm_values.specs.declared.value.Value.{Value as Cell};
    ghost use Rattle.row_nodes.specs.Held.{held_rows};

    ghost Value = { List (List Cell) };

    ghost view = { λ i. held_rows i.held };
}

impl<'a> Input<'a> {
    /// Rows that stay where they lie.
    pub fn stored(rows: &'a [Row]) -> Input<'a>
        ensures { result ≡ rows.now }
    {
        Input {
            held: Held::Stored(rows),
        }
    }

    /// Rows that were made.
    pub fn made(rows: Rows) -> Input<'a>
        ensures { result ≡ rows }
    {
        Input {
            held: Held::Made(rows),
        }
    }

    /// The rows in order.
    pub fn as_slice(&self) -> &[Row]
        ensures { result.now ≡ self.now }
    {
        match &self.held {
            Held::Stored(rows) => rows,
            Held::Made(rows) => rows.as_slice(),
        }
    }

    /// How many rows there are.
    pub fn len(&self) -> usize
        ensures { result ≡ length self.now }
    {
        self.as_slice().len()
    }

    /// The rows: made ones themselves, of stored ones copies. It fails only for want of memory.
    pub fn into_rows(self, alloc: Global) -> Result<Rows, NoMemory>
        ensures { IfOk result (λ rows. rows ≡ self.entry) }
    {
        match self.held {
            Held::Stored(rows) => copied(alloc, rows),
            Held::Made(rows) => Ok(rows),
        }
    }

    /// The rows whose flag isn't set: made ones themselves, of stored ones copies. It fails only for want of memory.
    pub fn without(self, alloc: Global, doomed: &[bool]) -> Result<Rows, NoMemory>
        requires { length doomed.now ≡ length self }
        ensures { IfOk result (λ rows. rows ≡ unmarked doomed.now self.entry) }
    {
        match self.held {
            Held::Stored(rows) => copied_without(alloc, rows, doomed),
            Held::Made(rows) => Ok(rows_without(rows, doomed)),
        }
    }
}

/// The rows of a table, where they lie; an identity without a table has none.
pub fn table_rows(id: u64, tables: &Tables) -> Input
    ensures { result ≡ rows_in tables.now id }
{
    match tables.rows(id) {
        Some(rows) => Input::stored(rows.as_slice()),
        None => Input::stored(&[]),
    }
}

/// The one row without columns. It fails only for want of memory.
pub fn single_row(alloc: Global) -> Result<Rows, NoMemory>
    ensures { IfOk result (λ rows. rows ≡ [] ∷ []) }
{
    let mut rows = List::new(alloc);
    rows.push(Row::new(alloc))?;
    Ok(rows)
}

/// Rows that were made, as an input.
pub fn made<'a>(rows: Result<Rows, NoMemory>) -> Result<Input<'a>, ExecError>
    ensures { (bag : Bag) → IfOk rows (λ found. found ≡ bag) → Gives (Good bag) result }
{
    Ok(Input::made(rows?))
}

fn copied(alloc: Global, rows: &[Row]) -> Result<Rows, NoMemory>
    ensures { IfOk result (λ copies. copies ≡ rows.now) }
{
    let mut copies = List::new(alloc);
    for row in rows {
        copies.push(row.copy(alloc)?)?;
    }
    Ok(copies)
}

fn copied_without(alloc: Global, rows: &[Row], doomed: &[bool]) -> Result<Rows, NoMemory>
    requires { length doomed.now ≡ length rows.now }
    ensures { IfOk result (λ copies. copies ≡ unmarked doomed.now rows.now) }
{
    let mut copies = List::new(alloc);
    for i in 0..rows.len() {
        if !doomed[i] {
            copies.push(rows[i].copy(alloc)?)?;
        }
    }
    Ok(copies)
}

fn rows_without(rows: Rows, doomed: &[bool]) -> Rows
    requires { length doomed.now ≡ length rows }
    ensures { result ≡ unmarked doomed.now rows }
{
    let mut kept = rows;
    kept.remove_marked(doomed);
    kept
}
