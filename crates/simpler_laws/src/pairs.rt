//! Tests of the pairs of a join by the side that decides them.
ghost use Rattle.std.specs.Prelude.{◌≡◌, ◌+◌, ◌∷◌, ◌++◌, [], List, cond, filter, IfOk, OnOk};
ghost use Rattle.bag_algebra.specs.Kinds.{width_of};
ghost use Rattle.bag_algebra.specs.declared.expr.Expr.{Expr};
ghost use Rattle.contribution.specs.MovedColumns.{PartsMoved};
ghost use Rattle.simpler_laws.specs.Conjuncts.{conjuncts};
ghost use Rattle.simpler_laws.specs.Sides.{is_around, is_left, is_of_both, is_own, is_right, is_right_alone, right_places, zeros, IsSplit};

use crate::columns::reads_only;
use crate::conditions::with_conjuncts;
use bag_algebra::{Expr, Query, exact_width};
use contribution::moved;
use perm_values::{Copyable, List, NoMemory, four};
use rewrite_core::sum;
use std::alloc::Global;

/// Tests of pairs: those that left rows decide alone; those that right rows do, over the columns of these; those that need
/// both; and those that read outer rows too.
#[derive(Drop)]
pub struct Sides {
    pub left: List<Expr>,
    pub right: List<Expr>,
    pub both: List<Expr>,
    pub around: List<Expr>,
}

/// The conjuncts of a condition and the tests, of pairs of rows of two queries, by the side that decides. It fails only for
/// want of memory.
pub fn join_sides(
    alloc: Global,
    left: &Query,
    right: &Query,
    condition: &Expr,
    tests: &[Expr],
) -> Result<Sides, NoMemory>
    ensures { IfOk result (λ sides.
        IsSplit (width_of left.now) (width_of right.now) (conjuncts condition.now ++ tests.now) sides) }
{
    let all = with_conjuncts(alloc, condition, tests)?;
    split_tests(alloc, left, right, all.as_slice())
}

/// The tests of pairs of rows of two queries by the side that decides.
fn split_tests(
    alloc: Global,
    left: &Query,
    right: &Query,
    tests: &[Expr],
) -> Result<Sides, NoMemory>
    ensures { IfOk result (λ sides. IsSplit (width_of left.now) (width_of right.now) tests.now sides) }
{
    let left_width = exact_width(left)?;
    let right_width = exact_width(right)?;
    let end = sum(left_width, right_width)?;
    let others = of_both(alloc, left_width, right_width, end, tests)?;
    let (left, right, both, around) = four(
        of_left(alloc, left_width, tests),
        of_right(alloc, left_width, right_width, end, tests),
        own(alloc, others.as_slice()),
        around(alloc, others.as_slice()),
    )?;
    Ok(Sides {
        left,
        right,
        both,
        around,
    })
}

fn of_left(alloc: Global, left: usize, tests: &[Expr]) -> Result<List<Expr>, NoMemory>
    ensures { IfOk result (λ found. found ≡ filter (is_left left) tests.now) }
{
    let mut found = List::new(alloc);
    for test in tests {
        let goes = reads_only(false, 0, left, test);
        add_where(alloc, &mut found, goes, test)?;
    }
    Ok(found)
}

fn of_both(
    alloc: Global,
    left: usize,
    right: usize,
    end: usize,
    tests: &[Expr],
) -> Result<List<Expr>, NoMemory>
    requires { end ≡ left + right }
    ensures { IfOk result (λ found. found ≡ filter (is_of_both left right) tests.now) }
{
    let mut found = List::new(alloc);
    for test in tests {
        let goes = is_of_both(left, right, end, test);
        add_where(alloc, &mut found, goes, test)?;
    }
    Ok(found)
}

fn own(alloc: Global, tests: &[Expr]) -> Result<List<Expr>, NoMemory>
    ensures { IfOk result (λ found. found ≡ filter is_own tests.now) }
{
    let mut found = List::new(alloc);
    for test in tests {
        let goes = reads_only(false, 0, usize::MAX, test);
        add_where(alloc, &mut found, goes, test)?;
    }
    Ok(found)
}

fn around(alloc: Global, tests: &[Expr]) -> Result<List<Expr>, NoMemory>
    ensures { IfOk result (λ found. found ≡ filter is_around tests.now) }
{
    let mut found = List::new(alloc);
    for test in tests {
        let goes = !reads_only(false, 0, usize::MAX, test);
        add_where(alloc, &mut found, goes, test)?;
    }
    Ok(found)
}

fn of_right(
    alloc: Global,
    left: usize,
    right: usize,
    end: usize,
    tests: &[Expr],
) -> Result<List<Expr>, NoMemory>
    requires { end ≡ left + right }
    ensures { IfOk result (λ found.
        PartsMoved (right_places left right) (filter (is_right_alone left right) tests.now) found) }
{
    let order = right_places(alloc, left, right)?;
    moved_right(alloc, left, right, end, order.as_slice(), tests)
}

fn moved_right(
    alloc: Global,
    left: usize,
    right: usize,
    end: usize,
    order: &[usize],
    tests: &[Expr],
) -> Result<List<Expr>, NoMemory>
    requires { end ≡ left + right }
    ensures { IfOk result (λ found.
        PartsMoved order.now (filter (is_right_alone left right) tests.now) found) }
{
    let mut found = List::new(alloc);
    for test in tests {
        let goes = is_right_alone(left, right, end, test);
        add_moved_where(alloc, &mut found, goes, test, order)?;
    }
    Ok(found)
}

/// Whether neither side alone decides the test.
fn is_of_both(left: usize, right: usize, end: usize, test: &Expr) -> bool
    requires { end ≡ left + right }
    ensures { result ≡ is_of_both left right test.now }
{
    !reads_only(false, 0, left, test) && !is_right(left, right, end, test)
}

/// Whether right rows decide the test, and not already left ones.
fn is_right_alone(left: usize, right: usize, end: usize, test: &Expr) -> bool
    requires { end ≡ left + right }
    ensures { result ≡ is_right_alone left right test.now }
{
    !reads_only(false, 0, left, test) && is_right(left, right, end, test)
}

/// Whether right rows decide the test.
fn is_right(left: usize, right: usize, end: usize, test: &Expr) -> bool
    requires { end ≡ left + right }
    ensures { result ≡ is_right left right test.now }
{
    right > 0 && reads_only(false, left, end, test)
}

/// Where the columns of pairs stand in right rows.
fn right_places(alloc: Global, left: usize, right: usize) -> Result<List<usize>, NoMemory>
    ensures { IfOk result (λ order. order ≡ right_places left right) }
{
    let mut order = zeros(alloc, left)?;
    order.append(List::range(alloc, 0, right)?)?;
    Ok(order)
}

fn zeros(alloc: Global, count: usize) -> Result<List<usize>, NoMemory>
    ensures { IfOk result (λ numbers. numbers ≡ zeros count) }
{
    let mut numbers = List::new(alloc);
    for _ in 0..count {
        numbers.push(0)?;
    }
    Ok(numbers)
}

/// Adds the test where it is to be added.
pub(crate) fn add_where(
    alloc: Global,
    found: &mut List<Expr>,
    goes: bool,
    test: &Expr,
) -> Result<(), NoMemory>
    ensures { OnOk result (found.new ≡ found.old ++ cond goes (test.now ∷ []) []) }
{
    if goes {
        return found.push(test.copy(alloc)?);
    }
    Ok(())
}

/// Adds the test with its columns at the places that the order has for them, where it is to be added.
fn add_moved_where(
    alloc: Global,
    found: &mut List<Expr>,
    goes: bool,
    test: &Expr,
    order: &[usize],
) -> Result<(), NoMemory>
    ensures { (before : List Expr) → PartsMoved order.now before found.old →
        OnOk result (PartsMoved order.now (before ++ cond goes (test.now ∷ []) []) found.new) }
{
    if goes {
        return found.push(moved(alloc, test, order)?);
    }
    Ok(())
}
