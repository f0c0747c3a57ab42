//! The rows that queries answer over two tables of a test.
use bag_algebra::{Env, Query, Tables, is_plain};
use perm_values::{Chars, List, NoMemory, Row, Rows, Value};
use row_executor::{ExecError, run_hashed, run_plain};
use std::alloc::Global;

/// A field of a row.
#[derive(Clone, Copy)]
pub(crate) enum Field<'a> {
    Null,
    Number(i64),
    Truth(bool),
    Word(&'a str),
}

impl Field<'_> {
    fn value(self, alloc: Global) -> Result<Value, NoMemory> {
        match self {
            Field::Null => Ok(Value::Null),
            Field::Number(number) => Ok(Value::Integer(number)),
            Field::Truth(truth) => Ok(Value::Boolean(truth)),
            Field::Word(word) => Ok(Value::Text(Chars::from_text(alloc, word)?)),
        }
    }
}

fn row_of(alloc: Global, fields: &[Field<'_>]) -> Result<Row, NoMemory> {
    let mut row = Row::new(alloc);
    for field in fields {
        row.push(field.value(alloc)?)?;
    }
    Ok(row)
}

pub(crate) fn rows_of(alloc: Global, given: &[&[Field<'_>]]) -> Result<Rows, NoMemory> {
    let mut rows = List::new(alloc);
    for fields in given {
        rows.push(row_of(alloc, fields)?)?;
    }
    Ok(rows)
}

fn is_among(row: &Row, rows: &Rows) -> bool {
    for other in rows.as_slice() {
        if row == other {
            return true;
        }
    }
    false
}

fn all_among(rows: &Rows, others: &Rows) -> bool {
    for row in rows.as_slice() {
        if !is_among(row, others) {
            return false;
        }
    }
    true
}

pub(crate) fn same_set(rows: &Rows, others: &Rows) -> bool {
    all_among(rows, others) && all_among(others, rows)
}

/// The rows of the two tables, and those that a query answers over them. How often each stands there is free, as it is in a rewriting.
#[derive(Clone, Copy)]
pub(crate) struct Case<'a> {
    pub(crate) first: &'a [&'a [Field<'a>]],
    pub(crate) second: &'a [&'a [Field<'a>]],
    pub(crate) answer: &'a [&'a [Field<'a>]],
}

impl Case<'_> {
    fn tables(&self, alloc: Global) -> Result<Tables, NoMemory> {
        let mut tables = Tables::new(alloc);
        tables.put(1, rows_of(alloc, self.first)?)?;
        tables.put(2, rows_of(alloc, self.second)?)?;
        Ok(tables)
    }

    fn is_answered_by(&self, alloc: Global, query: &Query) -> Result<bool, ExecError> {
        if !is_plain(query) {
            return Ok(false);
        }
        let tables = self.tables(alloc)?;
        let wanted = rows_of(alloc, self.answer)?;
        let env = Env::new(alloc);
        let plain = run_plain(alloc, query, &tables, &env)?;
        let hashed = run_hashed(alloc, query, &tables, &env)?;
        Ok(same_set(&plain, &wanted) && same_set(&hashed, &wanted))
    }

    /// Whether the query, in which no PROVENANCE stands, answers that by nested loops and by hashing.
    pub(crate) fn holds(
        &self,
        alloc: Global,
        query: Result<Query, NoMemory>,
    ) -> Result<bool, ExecError> {
        let query = query?;
        let held = self.is_answered_by(alloc, &query);
        drop(query);
        held
    }
}

/// A number that isn't greater than all of the second table: that comes of those than which it isn't greater.
pub(crate) const NOT_GREATER: Case<'static> = Case {
    first: &[&[Field::Number(2), Field::Word("y")]],
    second: &[&[Field::Number(1)], &[Field::Number(3)]],
    answer: &[&[
        Field::Number(2),
        Field::Truth(false),
        Field::Number(2),
        Field::Word("y"),
        Field::Number(3),
    ]],
};
