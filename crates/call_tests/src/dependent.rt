//! The rules that put beside a node's rows what its sublink contributes by a dependent join (`lateral_rewrite`), called as they are.
use crate::answers::{Case, Field, NOT_GREATER};
use crate::rewritten::{inside, with_rewriting};
use crate::trees::{
    chosen, column_compared, compared, exists, first_column_and_sublink, first_table, outer, own,
    second_table, second_view,
};
use bag_algebra::{Expr, Query, SubKind, Sublink};
use lateral_rewrite::{filter_lateral, project_lateral};
use null_logic::Compare;
use perm_values::{List, NoMemory, both, three};
use std::alloc::Global;
use std::test::Fail;

/// Whether a row of the view equals the first column.
fn some_equal(alloc: Global) -> Result<Sublink, NoMemory> {
    let condition = compared(alloc, Compare::Equal, own(0), outer(1, 0));
    exists(chosen(alloc, second_view(alloc), condition, Ok(List::new(alloc))))
}

/// A rewriting of the rows of the first table for which there is one.
fn filter_query(alloc: Global) -> Result<Query, NoMemory> {
    let rows = with_rewriting(alloc, first_table(alloc));
    let inner = inside(alloc, some_equal(alloc));
    let (rows, inner) = both(rows, inner)?;
    let (query, rewriting) = rows;
    let (subs, standing, rewritings) = inner;
    let made = filter_lateral(
        alloc,
        &query,
        rewriting,
        &Expr::Sub { number: 0 },
        subs.as_slice(),
        standing.as_slice(),
        rewritings,
    );
    drop(query);
    drop(subs);
    drop(standing);
    made
}

/// A rewriting of the first column of the first table, and whether it is greater than all rows of the second.
fn project_query(alloc: Global) -> Result<Query, NoMemory> {
    let rows = with_rewriting(alloc, first_table(alloc));
    let greater = column_compared(SubKind::All(Compare::Greater), 0, second_table(alloc));
    let inner = inside(alloc, greater);
    let items = first_column_and_sublink(alloc);
    let (rows, inner, items) = three(rows, inner, items)?;
    let (query, rewriting) = rows;
    let (subs, standing, rewritings) = inner;
    let made = project_lateral(
        alloc,
        &query,
        rewriting,
        items.as_slice(),
        subs.as_slice(),
        standing.as_slice(),
        rewritings,
    );
    drop(items);
    drop(query);
    drop(subs);
    drop(standing);
    made
}

/// A row stands beside the row of the view.
const SEEN: Case<'static> = Case {
    first: &[
        &[Field::Number(1), Field::Word("x")],
        &[Field::Number(2), Field::Word("y")],
    ],
    second: &[
        &[Field::Number(1)],
        &[Field::Number(2)],
        &[Field::Number(2)],
    ],
    answer: &[&[
        Field::Number(2),
        Field::Word("y"),
        Field::Number(2),
        Field::Word("y"),
        Field::Number(2),
    ]],
};

#[test]
fn dependent_joins_put_what_contributes_beside_the_rows(rt: HostRuntime) -> Result<(), Fail> {
    assert!(rt; SEEN.holds(rt.alloc(), filter_query(rt.alloc())) == Ok(true));
    assert!(rt; NOT_GREATER.holds(rt.alloc(), project_query(rt.alloc())) == Ok(true));
    Ok(())
}
