//! Operators on the values of their parts.
ghost use Rattle.std.specs.Prelude.{◌≡◌, cond, false};
ghost use Rattle.perm_values.specs.Values.{is_null};
ghost use Rattle.null_logic.specs.Comparison.{in_list};
ghost use Rattle.bag_algebra.specs.Expressions.{arith_values, negate_value, like_values, has_truth, operate};
ghost use Rattle.bag_algebra.specs.Means.{holds_of};
ghost use Rattle.bag_algebra.specs.Outcome.{Good, of_result};
ghost use Rattle.row_values.specs.Answers.{Gives};
ghost use Rattle.row_values.specs.Parts.{gone_on, is_connective, joined};

use crate::ExecError;
use crate::operand::Operand;
use null_logic::{
    Arith, Compare, Operator, RunFault, Truth, calculate, compare_values, like, negate,
};
use perm_values::{Copyable, Value};
use std::alloc::Global;

/// An operator other than AND and OR on the values of its parts; NULL where there are too few.
///
/// A fault comes only where the operator meets it.
pub(crate) fn operate(
    alloc: Global,
    op: Operator,
    values: &[Operand<'_>],
) -> Result<Value, ExecError>
    requires { is_connective op ≡ false }
    ensures { Gives (operate op values.now) result }
{
    match op {
        Operator::And => unreachable!(),
        Operator::Or => unreachable!(),
        Operator::Not => Ok(negated_truth(values)),
        Operator::Negate => negated(values),
        Operator::Compare(compare) => Ok(compared(compare, values)),
        Operator::Arith(arith) => calculated(arith, values),
        Operator::Like => Ok(matched(values)),
        Operator::Between => Ok(bounded(values)),
        Operator::InList => Ok(listed(values)),
        Operator::Coalesce => coalesce(alloc, values),
        Operator::NullIf => null_if(alloc, values),
    }
}

/// Whether the value is NULL.
pub fn is_null(value: &Value) -> bool
    ensures { result ≡ is_null value.now }
{
    match value {
        Value::Null => true,
        Value::Integer(_) | Value::Text(_) | Value::Boolean(_) => false,
    }
}

/// Whether a condition of this value is true.
pub fn holds(value: &Value) -> bool
    ensures { result ≡ holds_of value.now }
{
    Truth::of(value).is_true()
}

/// Whether the value has this truth; NULL is unknown.
pub(crate) fn has_truth(truth: Truth, value: &Value) -> bool
    ensures { result ≡ has_truth truth value.now }
{
    Truth::of(value) == truth
}

/// The truth that changes no other by AND, or by OR.
pub(crate) fn neutral(all: bool) -> Truth
    ensures { result ≡ cond all Truth.True Truth.False }
{
    if all { Truth::True } else { Truth::False }
}

/// The truth together with that of one more value, by AND or by OR.
pub(crate) fn joined(all: bool, truth: Truth, value: &Value) -> Truth
    ensures { result ≡ joined all truth value.now }
{
    if all {
        truth.and(Truth::of(value))
    } else {
        truth.or(Truth::of(value))
    }
}

/// What a chain comes to by one more step; a fault stays.
pub(crate) fn stepped(
    value: Result<Value, RunFault>,
    op: Arith,
    operand: &Value,
) -> Result<Value, RunFault>
    ensures { gone_on (of_result value) op operand.now ≡ of_result result }
{
    match value {
        Ok(value) => arith_values(op, &value, operand),
        Err(fault) => Err(fault),
    }
}

fn negated_truth(values: &[Operand<'_>]) -> Value
    ensures { operate Operator.Not values.now ≡ Good result }
{
    match values {
        [value, ..] => Truth::of(value.get()).not().value(),
        [] => Value::Null,
    }
}

fn negated(values: &[Operand<'_>]) -> Result<Value, ExecError>
    ensures { Gives (operate Operator.Negate values.now) result }
{
    match values {
        [value, ..] => Ok(negate_value(value.get())?),
        [] => Ok(Value::Null),
    }
}

fn negate_value(value: &Value) -> Result<Value, RunFault>
    ensures { negate_value value.now ≡ of_result result }
{
    match value {
        Value::Integer(number) => Ok(Value::Integer(negate(*number)?)),
        Value::Null | Value::Text(_) | Value::Boolean(_) => Ok(Value::Null),
    }
}

fn compared(op: Compare, values: &[Operand<'_>]) -> Value
    ensures { operate (Operator.Compare op) values.now ≡ Good result }
{
    match values {
        [left, right, ..] => compare_values(op, left.get(), right.get()).value(),
        _ => Value::Null,
    }
}

fn calculated(op: Arith, values: &[Operand<'_>]) -> Result<Value, ExecError>
    ensures { Gives (operate (Operator.Arith op) values.now) result }
{
    match values {
        [left, right, ..] => Ok(arith_values(op, left.get(), right.get())?),
        _ => Ok(Value::Null),
    }
}

/// Arithmetic of two values: NULL beside NULL, also where the divisor is 0.
fn arith_values(op: Arith, left: &Value, right: &Value) -> Result<Value, RunFault>
    ensures { arith_values op left.now right.now ≡ of_result result }
{
    match (left, right) {
        (Value::Integer(a), Value::Integer(b)) => Ok(Value::Integer(calculate(op, *a, *b)?)),
        _ => Ok(Value::Null),
    }
}

fn matched(values: &[Operand<'_>]) -> Value
    ensures { operate Operator.Like values.now ≡ Good result }
{
    match values {
        [text, pattern, ..] => like_values(text.get(), pattern.get()),
        _ => Value::Null,
    }
}

fn like_values(text: &Value, pattern: &Value) -> Value
    ensures { result ≡ like_values text.now pattern.now }
{
    match (text, pattern) {
        (Value::Text(text), Value::Text(pattern)) => Value::Boolean(like(text, pattern)),
        _ => Value::Null,
    }
}

fn bounded(values: &[Operand<'_>]) -> Value
    ensures { operate Operator.Between values.now ≡ Good result }
{
    match values {
        [value, low, high, ..] => {
            let above = compare_values(Compare::GreaterEqual, value.get(), low.get());
            let below = compare_values(Compare::LessEqual, value.get(), high.get());
            above.and(below).value()
        }
        _ => Value::Null,
    }
}

fn listed(values: &[Operand<'_>]) -> Value
    ensures { operate Operator.InList values.now ≡ Good result }
{
    match values {
        [value, list @ ..] => in_list(value.get(), list).value(),
        [] => Value::Null,
    }
}

fn in_list(value: &Value, list: &[Operand<'_>]) -> Truth
    ensures { result ≡ in_list value.now list.now }
{
    let mut truth = Truth::False;
    for other in list {
        truth = truth.or(compare_values(Compare::Equal, value, other.get()));
    }
    truth
}

fn coalesce(alloc: Global, values: &[Operand<'_>]) -> Result<Value, ExecError>
    ensures { Gives (operate Operator.Coalesce values.now) result }
{
    for value in values {
        if !is_null(value.get()) {
            return Ok(value.get().copy(alloc)?);
        }
    }
    Ok(Value::Null)
}

fn null_if(alloc: Global, values: &[Operand<'_>]) -> Result<Value, ExecError>
    ensures { Gives (operate Operator.NullIf values.now) result }
{
    match values {
        [left, right, ..] if !compare_values(Compare::Equal, left.get(), right.get()).is_true() => {
            Ok(left.get().copy(alloc)?)
        }
        _ => Ok(Value::Null),
    }
}
