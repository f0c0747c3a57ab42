//! The rules that put candidates of a cross base beside the rows of a Filter or a Project (`rewrite_sublink`), called as they are, and
//! what they stand on (`contribution`).
use crate::answers::{Case, Field, NOT_GREATER};
use crate::rewritten::{inside_tables, with_rewriting};
use crate::trees::{
    all_of, chosen, column_compared, compared, exists, first_column_and_sublink, first_table,
    negated, only_sublink, outer, own, second_table,
};
use bag_algebra::{Expr, Query, SubKind, over_tables};
use contribution::{cross_base, null_row};
use null_logic::Compare;
use perm_values::{Kind, List, NoMemory, three};
use rewrite_sublink::{filter_with, project_with};
use std::alloc::Global;
use std::test::Fail;

/// The rows of the second table that are the outer row of it and the first column of the row around that.
fn met_by_both(alloc: Global) -> Result<Query, NoMemory> {
    let nearest = compared(alloc, Compare::Equal, own(0), outer(1, 0));
    let next = compared(alloc, Compare::Equal, own(0), outer(2, 0));
    let condition = all_of(alloc, nearest, next);
    chosen(alloc, second_table(alloc), condition, Ok(List::new(alloc)))
}

/// The rows of the second table for which there is such a row.
fn met(alloc: Global) -> Result<Query, NoMemory> {
    let subs = only_sublink(alloc, exists(met_by_both(alloc)));
    let condition = Ok(Expr::Sub { number: 0 });
    chosen(alloc, second_table(alloc), condition, subs)
}

/// A rewriting of the rows of the first table on which the condition is true, whose sublink is whether there is such a row of the second.
fn filter_query(alloc: Global, condition: Result<Expr, NoMemory>) -> Result<Query, NoMemory> {
    let rows = with_rewriting(alloc, first_table(alloc));
    let inner = inside_tables(alloc, exists(met(alloc)));
    let (rows, inner, condition) = three(rows, inner, condition)?;
    let (query, rewriting) = rows;
    let (subs, standing, rewritings) = inner;
    let made = filter_with(
        alloc,
        &query,
        rewriting,
        &condition,
        subs.as_slice(),
        standing.as_slice(),
        rewritings,
    );
    drop(condition);
    drop(query);
    drop(subs);
    drop(standing);
    made
}

/// A rewriting of the first column of the first table, and whether it is greater than all rows of the second.
fn project_query(alloc: Global) -> Result<Query, NoMemory> {
    let rows = with_rewriting(alloc, first_table(alloc));
    let greater = column_compared(SubKind::All(Compare::Greater), 0, second_table(alloc));
    let inner = inside_tables(alloc, greater);
    let items = first_column_and_sublink(alloc);
    let (rows, inner, items) = three(rows, inner, items)?;
    let (query, rewriting) = rows;
    let (subs, standing, rewritings) = inner;
    let made = project_with(
        alloc,
        &query,
        rewriting,
        items.as_slice(),
        subs.as_slice(),
        standing.as_slice(),
        rewritings,
    );
    drop(items);
    drop(query);
    drop(subs);
    drop(standing);
    made
}

const ROWS: &[&[Field<'static>]] = &[
    &[Field::Number(1), Field::Word("x")],
    &[Field::Number(2), Field::Word("y")],
];

/// A row for which there is one stands beside both that make it so.
const FOUND: Case<'static> = Case {
    first: ROWS,
    second: &[&[Field::Number(1)]],
    answer: &[&[
        Field::Number(1),
        Field::Word("x"),
        Field::Number(1),
        Field::Word("x"),
        Field::Number(1),
        Field::Number(1),
    ]],
};

/// A row for which there is none stands beside NULLs.
const NONE_FOUND: Case<'static> = Case {
    first: ROWS,
    second: &[&[Field::Number(1)]],
    answer: &[&[
        Field::Number(2),
        Field::Word("y"),
        Field::Number(2),
        Field::Word("y"),
        Field::Null,
        Field::Null,
    ]],
};

#[test]
fn rules_put_candidates_beside_the_rows(rt: HostRuntime) -> Result<(), Fail> {
    let alloc = rt.alloc();
    let found = filter_query(alloc, Ok(Expr::Sub { number: 0 }));
    assert!(rt; FOUND.holds(alloc, found) == Ok(true));
    let none_found = filter_query(alloc, negated(alloc, Expr::Sub { number: 0 }));
    assert!(rt; NONE_FOUND.holds(alloc, none_found) == Ok(true));
    assert!(rt; NOT_GREATER.holds(alloc, project_query(alloc)) == Ok(true));
    Ok(())
}

/// The cross base of the rows of the second table for which there is such a row.
fn cross_query(alloc: Global) -> Result<Query, NoMemory> {
    let query = met(alloc)?;
    if !over_tables(&query) {
        drop(query);
        return Err(NoMemory);
    }
    let made = cross_base(alloc, &query);
    drop(query);
    made
}

/// Both sources have each row of the table, or nothing.
const CROSSED: Case<'static> = Case {
    first: ROWS,
    second: &[&[Field::Number(1)]],
    answer: &[
        &[Field::Null, Field::Null],
        &[Field::Null, Field::Number(1)],
        &[Field::Number(1), Field::Null],
        &[Field::Number(1), Field::Number(1)],
    ],
};

const NULLS: Case<'static> = Case {
    first: ROWS,
    second: &[],
    answer: &[&[Field::Null, Field::Null]],
};

#[test]
fn candidates_are_all_rows_and_nulls(rt: HostRuntime) -> Result<(), Fail> {
    let alloc = rt.alloc();
    assert!(rt; CROSSED.holds(alloc, cross_query(alloc)) == Ok(true));
    let nulls = null_row(alloc, [Kind::Integer, Kind::Text].as_slice());
    assert!(rt; NULLS.holds(alloc, nulls) == Ok(true));
    Ok(())
}
