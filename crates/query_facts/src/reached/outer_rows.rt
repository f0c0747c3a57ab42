//! How many outer rows a query needs to see, the nearest ones.
ghost use Rattle.std.specs.Prelude.{◌≡◌, ◌↔◌, ℕ, nat_le, IsTrue, List, []};
ghost use Rattle.perm_values.specs.declared.kind.Kind.{Kind};
ghost use Rattle.query_facts.specs.reached.built.Closed.{all_parts_within, all_steps_within, all_arms_within, all_read_within};
ghost use Rattle.bag_algebra.specs.Closed.{within_levels, items_within, aggregates_within, reads_within, is_closed};
ghost use Rattle.bag_algebra.specs.WellFormed.{WellFormed};

use bag_algebra::{Aggr, Arm, ChainStep, Expr, Item, Query, Sublink};

/// Whether the query reads no outer row. Of a query that is well formed under some outer kinds this says whether it is
/// well formed under none. It takes no memory.
pub fn is_closed(query: &Query) -> bool
    ensures value { result ≡ is_closed query.now }
    ensures formed { (outer : List (List Kind)) →
        WellFormed outer query.now → IsTrue result ↔ WellFormed [] query.now }
{
    outermost(query) == 0
}

/// How many outer rows, the nearest ones, the query needs to see.
#[cycle(outermost)]
fn outermost(query: &Query) -> usize
    ensures { (n : ℕ) → nat_le result n ≡ reads_within query.now n }
{
    match query {
        Query::Table { .. } => 0,
        Query::Single => 0,
        Query::Base { input, .. } => outermost(input.get()),
        Query::Filter {
            input,
            condition,
            subs,
        } => outermost(input.get())
            .max(farthest(condition))
            .max(outermost_of_subs(subs.as_slice())),
        Query::Project { input, items, subs } => outermost(input.get())
            .max(farthest_of_items(items.as_slice()))
            .max(outermost_of_subs(subs.as_slice())),
        Query::Join {
            left,
            right,
            condition,
            subs,
            ..
        } => outermost(left.get())
            .max(outermost(right.get()))
            .max(farthest(condition))
            .max(outermost_of_subs(subs.as_slice())),
        Query::Union { left, right, .. } => outermost(left.get()).max(outermost(right.get())),
        Query::Intersect { left, right, .. } => outermost(left.get()).max(outermost(right.get())),
        Query::Except { left, right, .. } => outermost(left.get()).max(outermost(right.get())),
        Query::Distinct { input } => outermost(input.get()),
        Query::Aggregate {
            input,
            aggregates,
            ..
        } => outermost(input.get()).max(farthest_of_aggregates(aggregates.as_slice())),
        Query::Limit { input, .. } => outermost(input.get()),
        Query::Prov { input } => outermost(input.get()),
        Query::Apply { left, right, .. } => {
            outermost(left.get()).max(outermost(right.get()).saturating_sub(1))
        }
    }
}

/// How many outer rows the sublinks of a node need; their queries see the node's row as the nearest outer row.
#[cycle(outermost)]
fn outermost_of_subs(subs: &[Sublink]) -> usize
    ensures { (n : ℕ) → nat_le result n ≡ all_read_within subs.now n }
{
    let mut needed: usize = 0;
    for sub in subs {
        let tested = match &sub.tested {
            Some(tested) => farthest(tested),
            None => 0,
        };
        let query = outermost(&sub.query).saturating_sub(1);
        needed = needed.max(tested.max(query));
    }
    needed
}

fn farthest_of_items(items: &[Item]) -> usize
    ensures { (n : ℕ) → nat_le result n ≡ items_within items.now n }
{
    let mut level: usize = 0;
    for item in items {
        level = level.max(farthest(&item.expr));
    }
    level
}

fn farthest_of_aggregates(aggregates: &[Aggr]) -> usize
    ensures { (n : ℕ) → nat_le result n ≡ aggregates_within aggregates.now n }
{
    let mut level: usize = 0;
    for aggregate in aggregates {
        let read = match &aggregate.argument {
            Some(argument) => farthest(argument),
            None => 0,
        };
        level = level.max(read);
    }
    level
}

/// The greatest level of the columns in the expression, 0 where it has none.
#[cycle(farthest)]
fn farthest(expr: &Expr) -> usize
    ensures { (n : ℕ) → nat_le result n ≡ within_levels expr.now n }
{
    match expr {
        Expr::Col { level, .. } => *level,
        Expr::Lit { .. } => 0,
        Expr::Op { parts, .. } => farthest_of_parts(parts.as_slice()),
        Expr::Chain { first, steps } => farthest(first.get()).max(farthest_of_steps(
            steps.as_slice(),
        )),
        Expr::Case { arms, otherwise } => farthest_of_arms(arms.as_slice()).max(farthest(
            otherwise.get(),
        )),
        Expr::Sub { .. } => 0,
        Expr::IsNull { part } => farthest(part.get()),
        Expr::IsTruth { part, .. } => farthest(part.get()),
        Expr::Same { first, second } => farthest(first.get()).max(farthest(second.get())),
    }
}

#[cycle(farthest)]
fn farthest_of_parts(parts: &[Expr]) -> usize
    ensures { (n : ℕ) → nat_le result n ≡ all_parts_within parts.now n }
{
    let mut level: usize = 0;
    for part in parts {
        level = level.max(farthest(part));
    }
    level
}

#[cycle(farthest)]
fn farthest_of_steps(steps: &[ChainStep]) -> usize
    ensures { (n : ℕ) → nat_le result n ≡ all_steps_within steps.now n }
{
    let mut level: usize = 0;
    for step in steps {
        level = level.max(farthest(&step.part));
    }
    level
}

#[cycle(farthest)]
fn farthest_of_arms(arms: &[Arm]) -> usize
    ensures { (n : ℕ) → nat_le result n ≡ all_arms_within arms.now n }
{
    let mut level: usize = 0;
    for arm in arms {
        level = level.max(farthest(&arm.condition).max(farthest(&arm.value)));
    }
    level
}
