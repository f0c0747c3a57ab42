//! The least and the greatest of values.
ghost use Rattle.std.specs.Prelude.{◌≡◌, ◌<◌, cond, length};
ghost use Rattle.perm_values.specs.Rows.{value_at};
ghost use Rattle.bag_algebra.specs.Bags.{sorted};
ghost use Rattle.bag_algebra.specs.Means.{first_or_null, present};
ghost use Rattle.row_values.specs.Foremost.{order_of, takes_over};

use crate::operate::is_null;
use perm_values::Value;
use std::cmp::Ordering;

/// The place of a value that none comes before, NULLs aside; the number of values where all are NULL.
pub(crate) fn foremost(values: &[Value], greatest: bool) -> usize
    ensures { value_at values.now result ≡ first_or_null (sorted (order_of greatest) (present values.now)) }
{
    let count = values.len();
    let mut best = count;
    for behind in 0..count {
        best = better(values, count - 1 - behind, best, greatest);
    }
    best
}

/// The place of the better of two values, the first where they tie.
fn better(values: &[Value], at: usize, best: usize, greatest: bool) -> usize
    requires { at < length values.now }
    ensures { result ≡ cond (takes_over greatest values.now at best) at best }
{
    if takes_over(values, at, best, greatest) {
        at
    } else {
        best
    }
}

/// Whether the value comes before the best one behind it, or ties with it.
fn takes_over(values: &[Value], at: usize, best: usize, greatest: bool) -> bool
    requires { at < length values.now }
    ensures { result ≡ takes_over greatest values.now at best }
{
    let value = &values[at];
    if is_null(value) {
        return false;
    }
    match values.get(best) {
        Some(other) => order_of(value, other, greatest) != Ordering::Greater,
        None => true,
    }
}

/// The order of two values, turned where the greatest is wanted.
fn order_of(value: &Value, other: &Value, greatest: bool) -> Ordering
    ensures { result ≡ order_of greatest value.now other.now }
{
    let order = value.order(other);
    if greatest { order.reverse() } else { order }
}
