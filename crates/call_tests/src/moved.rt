//! The rules that put beside a node's rows what its sublink contributes (`rewrite_move`), called as they are.
use crate::answers::{Case, Field, NOT_GREATER};
use crate::rewritten::{inside, with_rewriting};
use crate::trees::{column_compared, first_column_and_sublink, first_table, second_table};
use bag_algebra::{Expr, Query, SubKind};
use null_logic::Compare;
use perm_values::{NoMemory, both, three};
use rewrite_move::{filter_moved, project_moved};
use std::alloc::Global;
use std::test::Fail;

/// A rewriting of the rows of the first table whose first column equals a row of the second.
fn filter_query(alloc: Global) -> Result<Query, NoMemory> {
    let rows = with_rewriting(alloc, first_table(alloc));
    let equal = column_compared(SubKind::Any(Compare::Equal), 0, second_table(alloc));
    let inner = inside(alloc, equal);
    let (rows, inner) = both(rows, inner)?;
    let (query, rewriting) = rows;
    let (subs, standing, rewritings) = inner;
    let made = filter_moved(
        alloc,
        &query,
        rewriting,
        &Expr::Sub { number: 0 },
        subs.as_slice(),
        standing.as_slice(),
        rewritings,
    );
    drop(query);
    drop(subs);
    drop(standing);
    made
}

/// A rewriting of the first column of the first table, and whether it is greater than all rows of the second.
fn project_query(alloc: Global) -> Result<Query, NoMemory> {
    let rows = with_rewriting(alloc, first_table(alloc));
    let greater = column_compared(SubKind::All(Compare::Greater), 0, second_table(alloc));
    let inner = inside(alloc, greater);
    let items = first_column_and_sublink(alloc);
    let (rows, inner, items) = three(rows, inner, items)?;
    let (query, rewriting) = rows;
    let (subs, standing, rewritings) = inner;
    let made = project_moved(
        alloc,
        &query,
        rewriting,
        items.as_slice(),
        subs.as_slice(),
        standing.as_slice(),
        rewritings,
    );
    drop(items);
    drop(query);
    drop(subs);
    drop(standing);
    made
}

/// A row stays beside the row that it equals, and no row beside NULL.
const EQUAL: Case<'static> = Case {
    first: &[
        &[Field::Number(1), Field::Word("x")],
        &[Field::Number(2), Field::Word("y")],
    ],
    second: &[&[Field::Number(1)], &[Field::Null]],
    answer: &[&[
        Field::Number(1),
        Field::Word("x"),
        Field::Number(1),
        Field::Word("x"),
        Field::Number(1),
    ]],
};

#[test]
fn rules_put_what_contributes_beside_the_rows(rt: HostRuntime) -> Result<(), Fail> {
    assert!(rt; EQUAL.holds(rt.alloc(), filter_query(rt.alloc())) == Ok(true));
    assert!(rt; NOT_GREATER.holds(rt.alloc(), project_query(rt.alloc())) == Ok(true));
    Ok(())
}
