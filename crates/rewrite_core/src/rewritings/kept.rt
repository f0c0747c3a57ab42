//! Joins of which some columns are left out.
ghost use Rattle.std.specs.Prelude.{◌≡◌, ◌+◌, ◌-◌, ◌^◌, ◌≤◌, IfOk, IfErr};
ghost use Rattle.bag_algebra.specs.Kinds.{width_of};
ghost use Rattle.bag_algebra.specs.declared.query.JoinKind.TheVariants.{Inner};
ghost use Rattle.rewrite_core.specs.rewritings.KeptColumns.{columns_kept, differs_from_first, kept_places, pairs_of, same_as_first};

use bag_algebra::{Expr, JoinKind, Query, exact_width};
use contribution::{inwards, join_on, regroup, same_columns};
use null_logic::Operator;
use perm_values::{List, NoMemory};
use std::alloc::Global;

/// The sum of two numbers of columns. Want of memory comes exactly where no `usize` holds it.
pub fn sum(first: usize, second: usize) -> Result<usize, NoMemory>
    ensures total { IfOk result (λ total. total ≡ first + second) }
    ensures lacking { IfErr result (λ _. 2 ^ 64 ≤ first + second) }
{
    match first.checked_add(second) {
        Some(total) => Ok(total),
        None => Err(NoMemory),
    }
}

/// Whether so many of the first columns are, one by one, the same as those from a place on, two NULLs included. It fails
/// only for want of memory.
pub fn same_as_first(alloc: Global, count: usize, from: usize) -> Result<Expr, NoMemory>
    ensures { IfOk result (λ test. test ≡ same_as_first count from) }
{
    let first = List::range(alloc, 0, count)?;
    let others = List::range(alloc, from, count)?;
    same_columns(alloc, 0, first.as_slice(), others.as_slice())
}

/// The join of the queries on the condition, without sublinks, and of its columns the first `kept` and those behind the
/// `left_out` next ones. It fails only for want of memory.
pub fn join_kept(
    alloc: Global,
    kind: JoinKind,
    left: Query,
    right: Query,
    condition: Expr,
    kept: usize,
    left_out: usize,
) -> Result<Query, NoMemory>
    ensures { IfOk result (λ p. p ≡ columns_kept (pairs_of kind left right condition) kept left_out) }
{
    let pairs = join_on(alloc, kind, left, right, condition)?;
    columns_kept(alloc, pairs, kept, left_out)
}

/// Of the query's columns the first `kept` and those behind the `left_out` next ones. It fails only for want of memory.
pub fn columns_kept(
    alloc: Global,
    query: Query,
    kept: usize,
    left_out: usize,
) -> Result<Query, NoMemory>
    ensures { IfOk result (λ p. p ≡ columns_kept query kept left_out) }
{
    let Ok(order) = kept_order(alloc, &query, kept, left_out) else {
        drop(query);
        return Err(NoMemory);
    };
    regroup(alloc, query, order.as_slice())
}

fn kept_order(
    alloc: Global,
    query: &Query,
    kept: usize,
    left_out: usize,
) -> Result<List<usize>, NoMemory>
    ensures { IfOk result (λ order. order ≡ kept_places kept left_out (width_of query.now)) }
{
    let behind = sum(kept, left_out)?;
    let all = exact_width(query)?;
    let mut order = List::range(alloc, 0, kept)?;
    order.append(List::range(alloc, behind, all.saturating_sub(behind))?)?;
    Ok(order)
}

/// Whether one of so many of the first columns isn't the same as its fellow from a place on. It fails only for want of memory.
pub fn differs_from_first(alloc: Global, count: usize, from: usize) -> Result<Expr, NoMemory>
    ensures { IfOk result (λ test. test ≡ differs_from_first count from) }
{
    let mut parts = List::new(alloc);
    parts.push(same_as_first(alloc, count, from)?)?;
    Ok(Expr::Op {
        op: Operator::Not,
        parts,
    })
}

/// Each row of the left query beside the rows of the right one that begin with the same columns, without these. It fails only
/// for want of memory.
pub fn join_on_first_columns(
    alloc: Global,
    left: Query,
    right: Query,
    columns: usize,
    kept: usize,
) -> Result<Query, NoMemory>
    ensures { IfOk result (λ p.
        p ≡ columns_kept (pairs_of Inner left right (same_as_first columns kept)) kept columns) }
{
    let Ok(same) = same_as_first(alloc, columns, kept) else {
        drop(left);
        drop(right);
        return Err(NoMemory);
    };
    // a row that stands on one side alone isn't kept
    join_kept(alloc, inwards(), left, right, same, kept, columns)
}
