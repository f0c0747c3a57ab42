//! Whether queries are the very same. No contract rests on it: it tells only when another round would change nothing.
#![tactic(auto, using(bag_algebra::proofs::Smaller::smaller))]

mod expressions;

use crate::alike::expressions::{same_aggregates, same_expr, same_items, same_option};
use bag_algebra::{Aggr, Expr, Inputs, Item, JoinKind, Query, Sublink};
use perm_values::{Key, Kind};

/// Whether both are the same query. Of sources and of PROVENANCE it says no. It takes no memory.
#[cycle(same_query)]
pub(crate) fn same_query(one: &Query, other: &Query) -> bool {
    same_node(one, other)
        && same_inputs(one.inputs(), other.inputs())
        && same_sublinks(one.sublinks(), other.sublinks())
}

#[cycle(same_query)]
fn same_inputs(one: Inputs<'_>, other: Inputs<'_>) -> bool {
    match one {
        Inputs::Zero => matches!(other, Inputs::Zero),
        Inputs::One(input) => match other {
            Inputs::One(second) => same_query(input, second),
            _ => false,
        },
        Inputs::Two(left, right) => match other {
            Inputs::Two(second, third) => same_query(left, second) && same_query(right, third),
            _ => false,
        },
    }
}

#[cycle(same_query)]
fn same_sublinks(one: &[Sublink], others: &[Sublink]) -> bool {
    if one.len() != others.len() {
        return false;
    }
    for (number, sub) in one.iter().enumerate() {
        let other = &others[number];
        if !same_test(sub, other) || !same_query(&sub.query, &other.query) {
            return false;
        }
    }
    true
}

fn same_test(one: &Sublink, other: &Sublink) -> bool {
    one.kind == other.kind && same_option(&one.tested, &other.tested)
}

/// Whether the topmost nodes are the same, but for their inputs and their sublinks.
fn same_node(one: &Query, other: &Query) -> bool {
    match one {
        Query::Table { id, kinds } => is_table(other, *id, kinds.as_slice()),
        Query::Single => matches!(other, Query::Single),
        Query::Base { .. } => false,
        Query::Filter { condition, .. } => is_filter(other, condition),
        Query::Project { items, .. } => is_project(other, items.as_slice()),
        Query::Join {
            kind,
            condition,
            ..
        } => is_join(other, *kind, condition),
        Query::Apply { kind, .. } =>
            matches!(other, Query::Apply { kind: second, .. } if *second == *kind),
        Query::Union { all, .. } =>
            matches!(other, Query::Union { all: second, .. } if *second == *all),
        Query::Intersect { all, .. } => {
            matches!(other, Query::Intersect { all: second, .. } if *second == *all)
        }
        Query::Except { all, .. } =>
            matches!(other, Query::Except { all: second, .. } if *second == *all),
        Query::Distinct { .. } => matches!(other, Query::Distinct { .. }),
        Query::Aggregate {
            groups,
            aggregates,
            ..
        } => is_aggregate(other, groups.as_slice(), aggregates.as_slice()),
        Query::Limit { keys, count, .. } => is_limit(other, keys.as_slice(), *count),
        Query::Prov { .. } => false,
    }
}

fn is_table(query: &Query, identity: u64, columns: &[Kind]) -> bool {
    match query {
        Query::Table { id, kinds } => *id == identity && kinds.as_slice() == columns,
        _ => false,
    }
}

fn is_filter(query: &Query, test: &Expr) -> bool {
    match query {
        Query::Filter { condition, .. } => same_expr(condition, test),
        _ => false,
    }
}

fn is_project(query: &Query, columns: &[Item]) -> bool {
    match query {
        Query::Project { items, .. } => same_items(items.as_slice(), columns),
        _ => false,
    }
}

fn is_join(query: &Query, word: JoinKind, test: &Expr) -> bool {
    match query {
        Query::Join {
            kind,
            condition,
            ..
        } => *kind == word && same_expr(condition, test),
        _ => false,
    }
}

fn is_aggregate(query: &Query, columns: &[usize], functions: &[Aggr]) -> bool {
    match query {
        Query::Aggregate {
            groups,
            aggregates,
            ..
        } => groups.as_slice() == columns && same_aggregates(aggregates.as_slice(), functions),
        _ => false,
    }
}

fn is_limit(query: &Query, order: &[Key], most: u64) -> bool {
    match query {
        Query::Limit { keys, count, .. } => *count == most && keys.as_slice() == order,
        _ => false,
    }
}
