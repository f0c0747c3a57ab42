//! Calls that take memory and that no run of the program reaches.
use crate::answers::{Case, Field};
use crate::trees::{first_column, first_table};
use bag_algebra::{Env, Query, Tables};
use perm_values::{Bytes, Chars, Copyable, List, NoMemory, Row, Value};
use row_executor::{ExecError, run_plain};
use simpler_laws::project_standing;
use std::alloc::Global;
use std::test::Fail;

/// A row of a number and a text.
fn row(alloc: Global) -> Result<Row, NoMemory> {
    let text = Chars::from_text(alloc, "y")?;
    let mut row = Row::new(alloc);
    row.push(Value::Integer(1))?;
    row.push(Value::Text(text))?;
    Ok(row)
}

/// How many values a row has that is made of the second value alone.
fn picked_width(alloc: Global) -> Result<usize, NoMemory> {
    let row = row(alloc)?;
    if row.len() == 2 {
        Ok(row.picked([1].as_slice())?.len())
    } else {
        Ok(0)
    }
}

fn bytes_copied(alloc: Global, from: &[u8]) -> Result<Bytes, NoMemory> {
    let mut bytes = Bytes::new(alloc);
    bytes.add(from)?;
    bytes.copy(alloc)
}

/// How many rows the copy of an environment has.
fn env_copied(alloc: Global) -> Result<usize, NoMemory> {
    let env = Env::new(alloc).pushed(alloc, &Row::new(alloc))?;
    Ok(env.copy(alloc)?.len())
}

/// How many rows the query without tables has, by nested loops.
fn rows_of_single(alloc: Global) -> Result<usize, ExecError> {
    let tables = Tables::new(alloc);
    let env = Env::new(alloc);
    Ok(run_plain(alloc, &Query::Single, &tables, &env)?.len())
}

#[test]
fn calls_without_a_run_succeed(rt: HostRuntime) -> Result<(), Fail> {
    let alloc = rt.alloc();
    assert_eq!(rt; picked_width(alloc)?, 1);
    assert_eq!(rt; bytes_copied(alloc, b"xy")?.as_slice(), b"xy".as_slice());
    assert_eq!(rt; env_copied(alloc)?, 1);
    assert!(rt; rows_of_single(alloc) == Ok(1));
    Ok(())
}

/// The first column of the first table, by what stands for a Project.
fn standing_columns(alloc: Global) -> Result<Query, NoMemory> {
    let items = first_column(alloc)?;
    let rows = first_table(alloc);
    let made = project_standing(alloc, rows, &items, Ok(List::new(alloc)));
    drop(items);
    made
}

#[test]
fn a_projection_stands_for_itself(rt: HostRuntime) -> Result<(), Fail> {
    let case = Case {
        first: &[&[Field::Number(1), Field::Word("x")]],
        second: &[],
        answer: &[&[Field::Number(1)]],
    };
    assert!(rt; case.holds(rt.alloc(), standing_columns(rt.alloc())) == Ok(true));
    Ok(())
}
