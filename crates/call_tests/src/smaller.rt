//! That fewer operators are run than stand for a query with PROVENANCE (`simplifier`): of one with IN, over a table of an integer
//! and a text and one of integers. And which are run for EXISTS, whose columns nobody reads.
ghost use Rattle.std.specs.Prelude.{IfOk, IsTrue};
ghost use Rattle.bag_algebra.specs.Rewriting.{is_plain};

use crate::trees::{
    chosen, column_compared, exists, first_column, first_table, only_item, only_sublink, own,
    second_table,
};
use bag_algebra::{ChainStep, Expr, Item, Query, SubKind, Sublink, size};
use null_logic::{Arith, Compare};
use perm_values::{Boxed, Kind, List, NoMemory, both};
use rewrite_driver::eliminate;
use simplifier::simplify;
use std::alloc::Global;
use std::test::Fail;

/// The rows of the first table whose first column equals a row of the second.
fn equal_rows(alloc: Global) -> Result<Query, NoMemory> {
    let equal = column_compared(SubKind::Any(Compare::Equal), 0, second_table(alloc));
    let subs = only_sublink(alloc, equal);
    chosen(alloc, first_table(alloc), Ok(Expr::Sub { number: 0 }), subs)
}

/// Their first column.
fn answered(alloc: Global) -> Result<Query, NoMemory> {
    let (rows, items) = both(equal_rows(alloc), first_column(alloc))?;
    Query::project(alloc, rows, items, List::new(alloc))
}

/// What stands for its PROVENANCE.
fn whole(alloc: Global) -> Result<Query, NoMemory>
    ensures { IfOk result (λ p. IsTrue (is_plain p)) }
{
    let answered = answered(alloc)?;
    let asked = Query::provenance(alloc, answered)?;
    let plain = eliminate(alloc, &asked);
    drop(asked);
    plain
}

/// How many operators that has, and what is run for it.
fn operators(alloc: Global) -> Result<(u64, u64), NoMemory> {
    let whole = whole(alloc)?;
    let before = size(&whole);
    let run = simplify(alloc, whole)?;
    let after = size(&run);
    drop(run);
    Ok((before, after))
}

#[test]
fn few_operators_are_run(rt: HostRuntime) -> Result<(), Fail> {
    let (before, after) = operators(rt.alloc())?;
    assert!(rt; after < before);
    assert!(rt; after <= 8);
    Ok(())
}

/// The rows of the second table whose column is NULL.
fn missing(alloc: Global) -> Result<Query, NoMemory> {
    let part = Boxed::new(alloc, own(0))?;
    let condition = Ok(Expr::IsNull { part });
    chosen(alloc, second_table(alloc), condition, Ok(List::new(alloc)))
}

/// EXISTS over these items of them.
fn some_missing(
    alloc: Global,
    items: Result<List<Item>, NoMemory>,
) -> Result<List<Sublink>, NoMemory> {
    let (rows, items) = both(missing(alloc), items)?;
    let query = Query::project(alloc, rows, items, List::new(alloc));
    only_sublink(alloc, exists(query))
}

/// The rows of the first table where that holds.
fn where_missing(alloc: Global, items: Result<List<Item>, NoMemory>) -> Result<Query, NoMemory> {
    let subs = some_missing(alloc, items);
    chosen(alloc, first_table(alloc), Ok(Expr::Sub { number: 0 }), subs)
}

/// What stands for them.
fn found(alloc: Global, items: Result<List<Item>, NoMemory>) -> Result<Query, NoMemory>
    ensures { IfOk result (λ p. IsTrue (is_plain p)) }
{
    let asked = where_missing(alloc, items)?;
    let plain = eliminate(alloc, &asked);
    drop(asked);
    plain
}

/// How many operators are run for that.
fn run_for(alloc: Global, items: Result<List<Item>, NoMemory>) -> Result<u64, NoMemory> {
    let found = found(alloc, items)?;
    let run = simplify(alloc, found)?;
    let operators = size(&run);
    drop(run);
    Ok(operators)
}

/// A quotient, which may fault.
fn quotient(alloc: Global) -> Result<List<Item>, NoMemory> {
    let divisor = ChainStep {
        op: Arith::Divide,
        part: own(0),
    };
    let first = Boxed::new(alloc, own(0));
    let (first, steps) = both(first, only_item(alloc, divisor))?;
    let item = Item {
        expr: Expr::Chain { first, steps },
        kind: Kind::Integer,
    };
    only_item(alloc, item)
}

#[test]
fn exists_is_run_without_columns(rt: HostRuntime) -> Result<(), Fail> {
    // Two filters, each over its table; and the projection that may fault.
    assert!(rt; run_for(rt.alloc(), first_column(rt.alloc())) == Ok(4));
    assert!(rt; run_for(rt.alloc(), quotient(rt.alloc())) == Ok(5));
    Ok(())
}
