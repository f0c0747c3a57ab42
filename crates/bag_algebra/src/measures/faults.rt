//! What in a query may fault.
#![tactic(auto, using(crate::proofs::Smaller::smaller))]

ghost use Rattle.std.specs.Prelude.{◌≡◌};
ghost use Rattle.std.specs.List.{list_all};
ghost use Rattle.bag_algebra.specs.built.FaultFree.{all_parts_faultless, all_arms_faultless, all_fault_free};
ghost use Rattle.bag_algebra.specs.FaultFree.{faultless, items_faultless, aggregates_faultless, own_faultless, fault_free};
ghost use Rattle.bag_algebra.specs.Inputs.{given};

use crate::children::Inputs;
use crate::expr::{Arm, Expr, Item};
use crate::query::{AggFn, Aggr, Query, SubKind, Sublink};
use null_logic::Operator;

/// Whether the query holds no chain, no negation of a number, no SUM and no scalar sublink anywhere, sublinks included. It
/// takes no memory.
#[cycle(fault_free)]
pub fn fault_free(query: &Query) -> bool
    ensures { result ≡ fault_free query.now }
{
    inputs_fault_free(query.inputs()) && own_faultless(query) && all_fault_free(query.sublinks())
}

#[cycle(fault_free)]
fn inputs_fault_free(inputs: Inputs<'_>) -> bool
    ensures { result ≡ list_all fault_free (given inputs.entry) }
{
    match inputs {
        Inputs::Zero => true,
        Inputs::One(input) => fault_free(input),
        Inputs::Two(left, right) => fault_free(left) && fault_free(right),
    }
}

/// Whether what the topmost node itself evaluates, its sublinks aside, is free of faults.
fn own_faultless(query: &Query) -> bool
    ensures { result ≡ own_faultless query.now }
{
    match query {
        Query::Table { .. } => true,
        Query::Single => true,
        Query::Base { .. } => true,
        Query::Filter { condition, .. } => faultless(condition),
        Query::Project { items, .. } => items_faultless(items.as_slice()),
        Query::Join { condition, .. } => faultless(condition),
        Query::Apply { .. } => true,
        Query::Union { .. } => true,
        Query::Intersect { .. } => true,
        Query::Except { .. } => true,
        Query::Distinct { .. } => true,
        Query::Aggregate { aggregates, .. } => aggregates_faultless(aggregates.as_slice()),
        Query::Limit { .. } => true,
        Query::Prov { .. } => true,
    }
}

/// Whether no sublink is a scalar one, and what they test and their queries are free of faults. It takes no memory.
#[cycle(fault_free)]
pub fn all_fault_free(subs: &[Sublink]) -> bool
    ensures { result ≡ all_fault_free subs.now }
{
    for sub in subs {
        if matches!(sub.kind, SubKind::Scalar) || !fault_free(&sub.query) {
            return false;
        }
        if let Some(tested) = &sub.tested {
            if !faultless(tested) {
                return false;
            }
        }
    }
    true
}

/// Whether no item may fault. It takes no memory.
pub fn items_faultless(items: &[Item]) -> bool
    ensures { result ≡ items_faultless items.now }
{
    for item in items {
        if !faultless(&item.expr) {
            return false;
        }
    }
    true
}

fn aggregates_faultless(aggregates: &[Aggr]) -> bool
    ensures { result ≡ aggregates_faultless aggregates.now }
{
    for aggregate in aggregates {
        if matches!(aggregate.function, AggFn::Sum) {
            return false;
        }
        if let Some(argument) = &aggregate.argument {
            if !faultless(argument) {
                return false;
            }
        }
    }
    true
}

/// Whether the expression holds no chain and no negation of a number.
#[cycle(faultless)]
pub fn faultless(expr: &Expr) -> bool
    ensures { result ≡ faultless expr.now }
{
    match expr {
        Expr::Col { .. } => true,
        Expr::Lit { .. } => true,
        Expr::Op { op, parts } => !matches!(op, Operator::Negate | Operator::Arith(_))
            && parts_faultless(parts.as_slice()),
        Expr::Chain { .. } => false,
        Expr::Case { arms, otherwise } => {
            arms_faultless(arms.as_slice()) && faultless(otherwise.get())
        }
        Expr::Sub { .. } => true,
        Expr::IsNull { part } => faultless(part.get()),
        Expr::IsTruth { part, .. } => faultless(part.get()),
        Expr::Same { first, second } => faultless(first.get()) && faultless(second.get()),
    }
}

#[cycle(faultless)]
fn parts_faultless(parts: &[Expr]) -> bool
    ensures { result ≡ all_parts_faultless parts.now }
{
    for part in parts {
        if !faultless(part) {
            return false;
        }
    }
    true
}

#[cycle(faultless)]
fn arms_faultless(arms: &[Arm]) -> bool
    ensures { result ≡ all_arms_faultless arms.now }
{
    for arm in arms {
        if !faultless(&arm.condition) || !faultless(&arm.value) {
            return false;
        }
    }
    true
}
