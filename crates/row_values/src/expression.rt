//! The value of an expression on a row.
ghost use Rattle.std.specs.Prelude.{◌≡◌, false, [], IfOk, IfSome};
ghost use Rattle.std.specs.Option.{option_copied};
ghost use Rattle.perm_values.specs.Rows.{picked, value_at};
ghost use Rattle.perm_values.specs.declared.value.Value.{Value as Cell};
ghost use Rattle.bag_algebra.specs.Children.{part_values, arms_value};
ghost use Rattle.bag_algebra.specs.Expressions.{value, column, operate};
ghost use Rattle.bag_algebra.specs.Outcome.{Outcome, Good, and_then, mapped, both};
ghost use Rattle.row_values.specs.Answers.{Gives};
ghost use Rattle.row_values.specs.Parts.{chain_of, is_connective, null_test, truth_test, same_as, together, value_or_null, Chooses};

use crate::ExecError;
use crate::operand::Operand;
use crate::operate::{has_truth, holds, is_null, joined, neutral, operate, stepped};
use bag_algebra::{Arm, ChainStep, Env, Expr};
use null_logic::{Operator, Truth};
use perm_values::{Copyable, List, NoMemory, Row, Value};
use std::alloc::Global;

/// The value of an expression on a row, with the values of the node's sublinks and the outer rows; a place out of range
/// reads NULL. Every part is evaluated, and CASE alone chooses (ISO/IEC 9075-2, 'value expression' and 'case
/// expression'; that every operand is evaluated is this project's own).
///
/// `Fault` names a fault that the expression meets, and comes only where it meets one.
#[cycle(eval)]
pub fn eval(
    alloc: Global,
    expr: &Expr,
    row: &Row,
    subs: &[Value],
    env: &Env,
) -> Result<Value, ExecError>
    ensures { Gives (value expr.now row.now env.now subs.now) result }
{
    match expr {
        Expr::Col { level, place } => copied(alloc, column(*level, *place, row, env)),
        Expr::Lit { value, .. } => copied(alloc, Some(value)),
        Expr::Op { op, parts } => operated(alloc, *op, parts.as_slice(), row, subs, env),
        Expr::Chain { first, steps } => {
            let start = eval(alloc, first.get(), row, subs, env);
            chained(alloc, start, steps.as_slice(), row, subs, env)
        }
        Expr::Case { arms, otherwise } => match chosen(alloc, arms.as_slice(), row, subs, env) {
            Ok(Some(value)) => Ok(value),
            Ok(None) => eval(alloc, otherwise.get(), row, subs, env),
            Err(error) => Err(error),
        },
        Expr::Sub { number } => value_at(alloc, subs, *number),
        Expr::IsNull { part } => null_test(alloc, part.get(), row, subs, env),
        Expr::IsTruth { truth, part } => truth_test(alloc, *truth, part.get(), row, subs, env),
        Expr::Same { first, second } => {
            let left = operand(alloc, first.get(), row, subs, env);
            same_as(left, operand(alloc, second.get(), row, subs, env))
        }
    }
}

/// The value of an expression that sees no column.
///
/// `Fault` names a fault that the expression meets, and comes only where it meets one.
pub fn value_alone(alloc: Global, expr: &Expr) -> Result<Value, ExecError>
    ensures { Gives (value expr.now [] [] []) result }
{
    let nothing = Row::new(alloc);
    let env = Env::new(alloc);
    eval(alloc, expr, &nothing, &[], &env)
}

/// The values of the row at the places; NULL out of range. It fails only for want of memory.
pub fn values_at(alloc: Global, row: &Row, places: &[usize]) -> Result<Row, NoMemory>
    ensures { IfOk result (λ values. values ≡ picked places.now row.now) }
{
    let mut values = Row::with_room(alloc, places.len())?;
    for place in places {
        values.push(value_or_null(alloc, row.as_slice(), *place)?)?;
    }
    Ok(values)
}

/// The value of an operand, which is read where it lies if it is a column, a literal or a sublink's.
#[cycle(eval)]
fn operand<'a>(
    alloc: Global,
    expr: &'a Expr,
    row: &'a Row,
    subs: &'a [Value],
    env: &'a Env,
) -> Result<Operand<'a>, ExecError>
    ensures { Gives (value expr.now row.now env.now subs.now) result }
{
    match seen(expr, row, subs, env) {
        Some(value) => Ok(Operand::seen(value)),
        None => Ok(Operand::made(eval(alloc, expr, row, subs, env)?)),
    }
}

/// The value of a column, a literal or a sublink, where it lies; `None` for another expression, and out of range.
fn seen<'a>(expr: &'a Expr, row: &'a Row, subs: &'a [Value], env: &'a Env) -> Option<&'a Value>
    ensures { IfSome result (λ found. value expr.now row.now env.now subs.now ≡ Good found.now) }
{
    match expr {
        Expr::Col { level, place } => column(*level, *place, row, env),
        Expr::Lit { value, .. } => Some(value),
        Expr::Sub { number } => at(subs, *number),
        Expr::Op { .. } => None,
        Expr::Chain { .. } => None,
        Expr::Case { .. } => None,
        Expr::IsNull { .. } => None,
        Expr::IsTruth { .. } => None,
        Expr::Same { .. } => None,
    }
}

/// The operator on the values of its parts.
#[cycle(eval)]
fn operated(
    alloc: Global,
    op: Operator,
    parts: &[Expr],
    row: &Row,
    subs: &[Value],
    env: &Env,
) -> Result<Value, ExecError>
    ensures { Gives (and_then (part_values parts.now row.now env.now subs.now) (operate op)) result }
{
    match op {
        Operator::And => together(alloc, true, parts, row, subs, env),
        Operator::Or => together(alloc, false, parts, row, subs, env),
        _ => no_connective(alloc, op, parts, row, subs, env),
    }
}

/// An operator other than AND and OR; on one part or two it takes no memory for a list of them.
#[cycle(eval)]
fn no_connective(
    alloc: Global,
    op: Operator,
    parts: &[Expr],
    row: &Row,
    subs: &[Value],
    env: &Env,
) -> Result<Value, ExecError>
    requires { is_connective op ≡ false }
    ensures { Gives (and_then (part_values parts.now row.now env.now subs.now) (operate op)) result }
{
    match parts {
        [part] => {
            let value = operand(alloc, part, row, subs, env)?;
            operate(alloc, op, &[value])
        }
        [first, second] => {
            let left = operand(alloc, first, row, subs, env)?;
            let right = operand(alloc, second, row, subs, env)?;
            operate(alloc, op, &[left, right])
        }
        _ => {
            let values = operands(alloc, parts, row, subs, env)?;
            operate(alloc, op, values.as_slice())
        }
    }
}

/// The truth of all parts by AND, or by OR; no list is made of their values.
#[cycle(eval)]
fn together(
    alloc: Global,
    all: bool,
    parts: &[Expr],
    row: &Row,
    subs: &[Value],
    env: &Env,
) -> Result<Value, ExecError>
    ensures { Gives (and_then (part_values parts.now row.now env.now subs.now) (together all)) result }
{
    let mut truth = neutral(all);
    for part in parts {
        let value = operand(alloc, part, row, subs, env)?;
        truth = joined(all, truth, value.get());
    }
    Ok(truth.value())
}

/// The values of the parts, all of which are evaluated.
#[cycle(eval)]
fn operands<'a>(
    alloc: Global,
    parts: &'a [Expr],
    row: &'a Row,
    subs: &'a [Value],
    env: &'a Env,
) -> Result<List<Operand<'a>>, ExecError>
    ensures { Gives (part_values parts.now row.now env.now subs.now) result }
{
    let mut values = List::with_room(alloc, parts.len())?;
    for part in parts {
        values.push(operand(alloc, part, row, subs, env)?)?;
    }
    Ok(values)
}

/// The chain of the steps behind its first value. All operands are evaluated, whatever faults before them.
#[cycle(eval)]
fn chained(
    alloc: Global,
    first: Result<Value, ExecError>,
    steps: &[ChainStep],
    row: &Row,
    subs: &[Value],
    env: &Env,
) -> Result<Value, ExecError>
    ensures { (start : Outcome Cell) → Gives start first
        → Gives (chain_of start steps.now row.now env.now subs.now) result }
{
    let mut value = Ok(first?);
    for step in steps {
        let right = operand(alloc, &step.part, row, subs, env)?;
        value = stepped(value, step.op, right.get());
    }
    Ok(value?)
}

/// Whether the part is NULL.
#[cycle(eval)]
fn null_test(
    alloc: Global,
    part: &Expr,
    row: &Row,
    subs: &[Value],
    env: &Env,
) -> Result<Value, ExecError>
    ensures { Gives (mapped null_test (value part.now row.now env.now subs.now)) result }
{
    let value = operand(alloc, part, row, subs, env)?;
    Ok(Value::Boolean(is_null(value.get())))
}

/// Whether the part has this truth.
#[cycle(eval)]
fn truth_test(
    alloc: Global,
    truth: Truth,
    part: &Expr,
    row: &Row,
    subs: &[Value],
    env: &Env,
) -> Result<Value, ExecError>
    ensures { Gives (mapped (truth_test truth) (value part.now row.now env.now subs.now)) result }
{
    let value = operand(alloc, part, row, subs, env)?;
    Ok(Value::Boolean(has_truth(truth, value.get())))
}

/// The value of the first arm whose condition is true, `None` where there is none. Only that arm is evaluated.
#[cycle(eval)]
fn chosen(
    alloc: Global,
    arms: &[Arm],
    row: &Row,
    subs: &[Value],
    env: &Env,
) -> Result<Option<Value>, ExecError>
    ensures { Chooses (arms_value arms.now row.now env.now subs.now) result }
{
    for arm in arms {
        let condition = operand(alloc, &arm.condition, row, subs, env)?;
        if holds(condition.get()) {
            return Ok(Some(eval(alloc, &arm.value, row, subs, env)?));
        }
    }
    Ok(None)
}

/// Whether the values of two parts are the same.
fn same_as<'a>(
    left: Result<Operand<'a>, ExecError>,
    right: Result<Operand<'a>, ExecError>,
) -> Result<Value, ExecError>
    ensures { (a b : Outcome Cell) → Gives a left.entry → Gives b right.entry
        → Gives (both same_as a b) result }
{
    let left = left?;
    let right = right?;
    Ok(Value::Boolean(left.get().same(right.get())))
}

fn column<'a>(level: usize, place: usize, row: &'a Row, env: &'a Env) -> Option<&'a Value>
    ensures { value_or_null (option_copied result) ≡ column level place row.now env.now }
{
    if level == 0 {
        return at(row.as_slice(), place);
    }
    let outer = level - 1;
    if outer < env.len() {
        at(env.get(outer).as_slice(), place)
    } else {
        None
    }
}

/// The value at a place, where it lies; `None` out of range.
fn at(values: &[Value], place: usize) -> Option<&Value>
    ensures { value_or_null (option_copied result) ≡ value_at values.now place }
{
    values.get(place)
}

/// The value at a place; NULL out of range. It fails only for want of memory.
pub fn value_or_null(alloc: Global, values: &[Value], place: usize) -> Result<Value, NoMemory>
    ensures { IfOk result (λ value. value ≡ value_at values.now place) }
{
    match values.get(place) {
        Some(value) => value.copy(alloc),
        None => Ok(Value::Null),
    }
}

/// The value at a place; NULL out of range.
pub fn value_at(alloc: Global, values: &[Value], place: usize) -> Result<Value, ExecError>
    ensures { Gives (Good (value_at values.now place)) result }
{
    copied(alloc, at(values, place))
}

/// A copy of the value; NULL where there is none.
fn copied(alloc: Global, value: Option<&Value>) -> Result<Value, ExecError>
    ensures { Gives (Good (value_or_null (option_copied value.entry))) result }
{
    match value {
        Some(value) => Ok(value.copy(alloc)?),
        None => Ok(Value::Null),
    }
}
