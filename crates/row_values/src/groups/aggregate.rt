//! Aggregate functions over the values of a class.
ghost use Rattle.std.specs.Prelude.{◌≡◌, ◌<◌, ◌^◌, IfOk, length};
ghost use Rattle.bag_algebra.specs.Means.{aggregated, number_of, once_each, present, sum_of};
ghost use Rattle.bag_algebra.specs.Outcome.{of_result};
ghost use Rattle.row_values.specs.Answers.{Gives};

use crate::error::ExecError;
use crate::expression::value_at;
use crate::groups::foremost::foremost;
use crate::operate::is_null;
use bag_algebra::AggFn;
use indexmap::IndexSet;
use null_logic::RunFault;
use perm_values::{NoMemory, Value};
use std::alloc::Global;

/// The aggregate of the argument's values, one for each row of a class. NULLs count for COUNT(*) alone.
///
/// `OutOfRange` comes exactly where an exact sum is no 64-bit integer.
pub(crate) fn aggregated(
    alloc: Global,
    function: AggFn,
    values: &[Value],
) -> Result<Value, ExecError>
    ensures { Gives (aggregated function values.now) result }
{
    match function {
        AggFn::CountRows => Ok(Value::Integer(values.len() as i64)),
        AggFn::Count => Ok(Value::Integer(count_present(values) as i64)),
        AggFn::CountDistinct => Ok(Value::Integer(count_distinct(alloc, values)? as i64)),
        AggFn::Sum => Ok(sum(values)?),
        AggFn::Min => value_at(alloc, values, foremost(values, false)),
        AggFn::Max => value_at(alloc, values, foremost(values, true)),
    }
}

fn count_present(values: &[Value]) -> usize
    ensures counted { result ≡ length (present values.now) }
    ensures small { result < 2 ^ 63 }
{
    let mut count = 0;
    for value in values {
        if !is_null(value) {
            count += 1;
        }
    }
    count
}

fn count_distinct(alloc: Global, values: &[Value]) -> Result<usize, NoMemory>
    ensures counted { IfOk result (λ count. count ≡ length (once_each (present values.now))) }
    ensures small { IfOk result (λ count. count < 2 ^ 63) }
{
    let mut seen = IndexSet::new(alloc);
    for value in values {
        if !is_null(value) {
            seen.insert(value)?;
        }
    }
    Ok(seen.len())
}

/// The exact sum, NULL of no value.
fn sum(values: &[Value]) -> Result<Value, RunFault>
    ensures { sum_of (present values.now) ≡ of_result result }
{
    let mut total: i128 = 0;
    for value in values {
        total += i128::from(addend(value));
    }
    if count_present(values) == 0 {
        return Ok(Value::Null);
    }
    match i64::try_from(total) {
        Ok(total) => Ok(Value::Integer(total)),
        Err(_) => Err(RunFault::OutOfRange),
    }
}

/// What a value adds to a sum.
fn addend(value: &Value) -> i64
    ensures { result ≡ number_of value.now }
{
    match value {
        Value::Integer(number) => *number,
        Value::Null | Value::Text(_) | Value::Boolean(_) => 0,
    }
}
