//! The rules of joins with sublinks in their condition (`rewrite_sublink`, `lateral_rewrite`), called as they are.
use crate::answers::{Case, Field};
use crate::rewritten::{inside, inside_tables, with_rewriting};
use crate::trees::{
    all_of, chosen, column_compared, compared, exists, first_table, outer, own, second_table,
};
use bag_algebra::{Expr, JoinKind, Query, SubKind, Sublink};
use lateral_rewrite::join_lateral;
use null_logic::Compare;
use perm_values::{List, NoMemory, four};
use rewrite_sublink::join_with;
use std::alloc::Global;
use std::test::Fail;

/// A rewriting of the join of the two tables where the first column equals the third and the sublink is true.
fn join_query(
    alloc: Global,
    kind: JoinKind,
    sub: Result<Sublink, NoMemory>,
) -> Result<Query, NoMemory> {
    let inner = inside_tables(alloc, sub);
    let lefts = with_rewriting(alloc, first_table(alloc));
    let rights = with_rewriting(alloc, second_table(alloc));
    let equal = compared(alloc, Compare::Equal, own(0), own(2));
    let condition = all_of(alloc, equal, Ok(Expr::Sub { number: 0 }));
    let (lefts, rights, inner, condition) = four(lefts, rights, inner, condition)?;
    let (left, left_rewriting) = lefts;
    let (right, right_rewriting) = rights;
    let (subs, standing, rewritings) = inner;
    let made = join_with(
        alloc,
        kind,
        &left,
        left_rewriting,
        &right,
        right_rewriting,
        &condition,
        subs.as_slice(),
        standing.as_slice(),
        rewritings,
    );
    drop(condition);
    drop(left);
    drop(right);
    drop(subs);
    drop(standing);
    made
}

/// Likewise, by dependent joins.
fn lateral_query(
    alloc: Global,
    kind: JoinKind,
    sub: Result<Sublink, NoMemory>,
) -> Result<Query, NoMemory> {
    let inner = inside(alloc, sub);
    let lefts = with_rewriting(alloc, first_table(alloc));
    let rights = with_rewriting(alloc, second_table(alloc));
    let equal = compared(alloc, Compare::Equal, own(0), own(2));
    let condition = all_of(alloc, equal, Ok(Expr::Sub { number: 0 }));
    let (lefts, rights, inner, condition) = four(lefts, rights, inner, condition)?;
    let (left, left_rewriting) = lefts;
    let (right, right_rewriting) = rights;
    let (subs, standing, rewritings) = inner;
    let made = join_lateral(
        alloc,
        kind,
        &left,
        left_rewriting,
        &right,
        right_rewriting,
        &condition,
        subs.as_slice(),
        standing.as_slice(),
        rewritings,
    );
    drop(condition);
    drop(left);
    drop(right);
    drop(subs);
    drop(standing);
    made
}

/// Whether a row of the second table is less than the first column.
fn some_less(alloc: Global) -> Result<Sublink, NoMemory> {
    let condition = compared(alloc, Compare::Less, own(0), outer(1, 0));
    exists(chosen(alloc, second_table(alloc), condition, Ok(List::new(alloc))))
}

/// A left row without a partner stands beside NULLs for the right side and for the sublink.
const LEFT: Case<'static> = Case {
    first: &[
        &[Field::Number(1), Field::Word("x")],
        &[Field::Number(2), Field::Word("y")],
    ],
    second: &[&[Field::Number(1)], &[Field::Number(2)]],
    answer: &[
        &[
            Field::Number(1),
            Field::Word("x"),
            Field::Null,
            Field::Number(1),
            Field::Word("x"),
            Field::Null,
            Field::Null,
        ],
        &[
            Field::Number(2),
            Field::Word("y"),
            Field::Number(2),
            Field::Number(2),
            Field::Word("y"),
            Field::Number(2),
            Field::Number(1),
        ],
    ],
};

/// So does a right row, whose own column the sublink compares.
const RIGHT: Case<'static> = Case {
    first: &[&[Field::Number(1), Field::Word("x")]],
    second: &[&[Field::Number(1)], &[Field::Number(3)]],
    answer: &[
        &[
            Field::Number(1),
            Field::Word("x"),
            Field::Number(1),
            Field::Number(1),
            Field::Word("x"),
            Field::Number(1),
            Field::Number(1),
        ],
        &[
            Field::Null,
            Field::Null,
            Field::Number(3),
            Field::Null,
            Field::Null,
            Field::Number(3),
            Field::Null,
        ],
    ],
};

/// Whether the third column equals a row of the second table.
fn third_among(alloc: Global) -> Result<Sublink, NoMemory> {
    column_compared(SubKind::Any(Compare::Equal), 2, second_table(alloc))
}

#[test]
fn joins_keep_rows_without_partners(rt: HostRuntime) -> Result<(), Fail> {
    let alloc = rt.alloc();
    let left = join_query(alloc, JoinKind::Left, some_less(alloc));
    assert!(rt; LEFT.holds(alloc, left) == Ok(true));
    let right = join_query(alloc, JoinKind::Right, third_among(alloc));
    assert!(rt; RIGHT.holds(alloc, right) == Ok(true));
    Ok(())
}

#[test]
fn dependent_joins_keep_rows_without_partners(rt: HostRuntime) -> Result<(), Fail> {
    let alloc = rt.alloc();
    let left = lateral_query(alloc, JoinKind::Left, some_less(alloc));
    assert!(rt; LEFT.holds(alloc, left) == Ok(true));
    let right = lateral_query(alloc, JoinKind::Right, third_among(alloc));
    assert!(rt; RIGHT.holds(alloc, right) == Ok(true));
    Ok(())
}
