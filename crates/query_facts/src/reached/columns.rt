//! How far into an outer row the columns of a query reach.
ghost use Rattle.std.specs.Prelude.{◌≡◌, ◌≤◌, ◌^◌, ℕ, suc, max, Some, IfNone};
ghost use Rattle.query_facts.specs.reached.built.Reach.{all_parts_reach, all_steps_reach, all_arms_reach, all_subs_reach};
ghost use Rattle.query_facts.specs.reached.InUsize.{in_usize};
ghost use Rattle.query_facts.specs.reached.Reach.{column_reach, expr_reach, items_reach, aggregates_reach, query_reach, reach_of, reads_own_row};

use bag_algebra::{Aggr, Arm, ChainStep, Expr, Item, Query, Sublink};

/// How many of the first columns of its nearest outer row the query reads, or `None` where no `usize` holds that number. It takes
/// no memory.
pub fn reach(query: &Query) -> Option<usize>
    ensures value { (n : ℕ) → result ≡ Some n → n ≡ reach_of query.now }
    ensures none { IfNone result (2 ^ 64 ≤ reach_of query.now) }
{
    query_reach(query, Some(1))
}

/// Whether the expression reads a column of its own row. It takes no memory.
pub fn reads_own_row(expr: &Expr) -> bool
    ensures { result ≡ reads_own_row expr.now }
{
    match expr_reach(expr, Some(0)) {
        Some(reach) => reach > 0,
        None => true,
    }
}

/// How far the query reaches into the row at a level, as the expressions of its nodes see it. No column is at a level that no
/// `usize` holds.
#[cycle(query_reach)]
fn query_reach(query: &Query, level: Option<usize>) -> Option<usize>
    ensures { (n : ℕ) → level ≡ in_usize n → result ≡ in_usize (query_reach query.now n) }
{
    match query {
        Query::Table { .. } => Some(0),
        Query::Single => Some(0),
        Query::Base { input, .. } => query_reach(input.get(), level),
        Query::Filter {
            input,
            condition,
            subs,
        } => query_reach(input.get(), level)
            .further(expr_reach(condition, level))
            .further(subs_reach(subs.as_slice(), level)),
        Query::Project { input, items, subs } => query_reach(input.get(), level)
            .further(items_reach(items.as_slice(), level))
            .further(subs_reach(subs.as_slice(), level)),
        Query::Join {
            left,
            right,
            condition,
            subs,
            ..
        } => query_reach(left.get(), level)
            .further(query_reach(right.get(), level))
            .further(expr_reach(condition, level))
            .further(subs_reach(subs.as_slice(), level)),
        Query::Union { left, right, .. } => query_reach(left.get(), level).further(query_reach(
            right.get(),
            level,
        )),
        Query::Intersect { left, right, .. } => query_reach(left.get(), level).further(query_reach(
            right.get(),
            level,
        )),
        Query::Except { left, right, .. } => query_reach(left.get(), level).further(query_reach(
            right.get(),
            level,
        )),
        Query::Distinct { input } => query_reach(input.get(), level),
        Query::Aggregate {
            input,
            aggregates,
            ..
        } => query_reach(input.get(), level).further(aggregates_reach(
            aggregates.as_slice(),
            level,
        )),
        Query::Limit { input, .. } => query_reach(input.get(), level),
        Query::Prov { input } => query_reach(input.get(), level),
        Query::Apply { left, right, .. } => query_reach(left.get(), level).further(query_reach(
            right.get(),
            one_more(level),
        )),
    }
}

/// How far the sublinks of a node reach; their queries see each row one level further out.
#[cycle(query_reach)]
fn subs_reach(subs: &[Sublink], level: Option<usize>) -> Option<usize>
    ensures { (n : ℕ) → level ≡ in_usize n → result ≡ in_usize (all_subs_reach subs.now n) }
{
    let mut reach = Some(0);
    for sub in subs {
        let tested = match &sub.tested {
            Some(tested) => expr_reach(tested, level),
            None => Some(0),
        };
        let query = query_reach(&sub.query, one_more(level));
        reach = reach.further(tested.further(query));
    }
    reach
}

fn items_reach(items: &[Item], level: Option<usize>) -> Option<usize>
    ensures { (n : ℕ) → level ≡ in_usize n → result ≡ in_usize (items_reach items.now n) }
{
    let mut reach = Some(0);
    for item in items {
        reach = reach.further(expr_reach(&item.expr, level));
    }
    reach
}

fn aggregates_reach(aggregates: &[Aggr], level: Option<usize>) -> Option<usize>
    ensures { (n : ℕ) → level ≡ in_usize n → result ≡ in_usize (aggregates_reach aggregates.now n) }
{
    let mut reach = Some(0);
    for aggregate in aggregates {
        let argument = match &aggregate.argument {
            Some(argument) => expr_reach(argument, level),
            None => Some(0),
        };
        reach = reach.further(argument);
    }
    reach
}

/// How far the expression reaches into the row at a level, as it sees it.
#[cycle(expr_reach)]
fn expr_reach(expr: &Expr, level: Option<usize>) -> Option<usize>
    ensures { (n : ℕ) → level ≡ in_usize n → result ≡ in_usize (expr_reach expr.now n) }
{
    match expr {
        Expr::Col { level: own, place } => column_reach(*own, *place, level),
        Expr::Lit { .. } => Some(0),
        Expr::Op { parts, .. } => parts_reach(parts.as_slice(), level),
        Expr::Chain { first, steps } => expr_reach(first.get(), level).further(steps_reach(
            steps.as_slice(),
            level,
        )),
        Expr::Case { arms, otherwise } => arms_reach(arms.as_slice(), level).further(expr_reach(
            otherwise.get(),
            level,
        )),
        Expr::Sub { .. } => Some(0),
        Expr::IsNull { part } => expr_reach(part.get(), level),
        Expr::IsTruth { part, .. } => expr_reach(part.get(), level),
        Expr::Same { first, second } => expr_reach(first.get(), level).further(expr_reach(
            second.get(),
            level,
        )),
    }
}

#[cycle(expr_reach)]
fn parts_reach(parts: &[Expr], level: Option<usize>) -> Option<usize>
    ensures { (n : ℕ) → level ≡ in_usize n → result ≡ in_usize (all_parts_reach parts.now n) }
{
    let mut reach = Some(0);
    for part in parts {
        reach = reach.further(expr_reach(part, level));
    }
    reach
}

#[cycle(expr_reach)]
fn steps_reach(steps: &[ChainStep], level: Option<usize>) -> Option<usize>
    ensures { (n : ℕ) → level ≡ in_usize n → result ≡ in_usize (all_steps_reach steps.now n) }
{
    let mut reach = Some(0);
    for step in steps {
        reach = reach.further(expr_reach(&step.part, level));
    }
    reach
}

#[cycle(expr_reach)]
fn arms_reach(arms: &[Arm], level: Option<usize>) -> Option<usize>
    ensures { (n : ℕ) → level ≡ in_usize n → result ≡ in_usize (all_arms_reach arms.now n) }
{
    let mut reach = Some(0);
    for arm in arms {
        let own = expr_reach(&arm.condition, level).further(expr_reach(&arm.value, level));
        reach = reach.further(own);
    }
    reach
}

/// How far a column reaches: one further than its place in the row of its own level.
fn column_reach(own: usize, place: usize, level: Option<usize>) -> Option<usize>
    ensures { (n : ℕ) → level ≡ in_usize n → result ≡ in_usize (column_reach own place n) }
{
    if level == Some(own) {
        one_more(Some(place))
    } else {
        Some(0)
    }
}

/// Numbers of columns, `None` being those that no `usize` holds.
trait Further {
    /// The greater of the two.
    fn further(self, other: Self) -> Self;
}

impl Further for Option<usize> {
    fn further(self, other: Option<usize>) -> Option<usize>
        ensures { (m n : ℕ) → self ≡ in_usize m → other ≡ in_usize n → result ≡ in_usize (max m n) }
    {
        Some(self?.max(other?))
    }
}

fn one_more(number: Option<usize>) -> Option<usize>
    ensures { (n : ℕ) → number ≡ in_usize n → result ≡ in_usize (suc n) }
{
    number?.checked_add(1)
}
