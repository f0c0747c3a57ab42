//! Looks at each literal of an expression. That an integer has 64 bits and a text is UTF-8 is known where code
//! holds them, and nowhere in definitions.
ghost use Rattle.std.specs.List.{AllByRecursion};
ghost use Rattle.sql_printer.specs.forms.Printable.{WritableArm, WritableStep};
ghost use Rattle.sql_printer.specs.rows.Writable.{Writable, WritableAggregates, WritableItems, WritableOption, WritableValue};

use bag_algebra::{Aggr, Arm, ChainStep, Expr, Item};
use perm_values::Value;

fn see_value(value: &Value)
    ensures { WritableValue value.now }
{
    match value {
        Value::Null => (),
        Value::Integer(number) => {
            let _number = *number;
        }
        Value::Text(text) => {
            let _bytes = text.bytes();
        }
        Value::Boolean(_) => (),
    }
}

/// Looks at the literals of an expression. It takes no memory.
#[cycle(see)]
pub(crate) fn see(expr: &Expr)
    ensures { Writable expr.now }
{
    match expr {
        Expr::Col { .. } => (),
        Expr::Lit { value, .. } => see_value(value),
        Expr::Op { parts, .. } => see_parts(parts.as_slice()),
        Expr::Chain { first, steps } => {
            see(first.get());
            see_steps(steps.as_slice())
        }
        Expr::Case { arms, otherwise } => {
            see_arms(arms.as_slice());
            see(otherwise.get())
        }
        Expr::Sub { .. } => (),
        Expr::IsNull { part } => see(part.get()),
        Expr::IsTruth { part, .. } => see(part.get()),
        Expr::Same { first, second } => {
            see(first.get());
            see(second.get())
        }
    }
}

#[cycle(see)]
fn see_parts(parts: &[Expr])
    ensures { AllByRecursion Writable parts.now }
{
    for part in parts {
        see(part);
    }
}

#[cycle(see)]
fn see_steps(steps: &[ChainStep])
    ensures { AllByRecursion WritableStep steps.now }
{
    for step in steps {
        see(&step.part);
    }
}

#[cycle(see)]
fn see_arms(arms: &[Arm])
    ensures { AllByRecursion WritableArm arms.now }
{
    for arm in arms {
        see(&arm.condition);
        see(&arm.value);
    }
}

pub(crate) fn see_option(part: &Option<Expr>)
    ensures { WritableOption part.now }
{
    match part {
        Some(part) => see(part),
        None => (),
    }
}

pub(crate) fn see_items(items: &[Item])
    ensures { WritableItems items.now }
{
    for item in items {
        see(&item.expr);
    }
}

pub(crate) fn see_aggregates(aggregates: &[Aggr])
    ensures { WritableAggregates aggregates.now }
{
    for aggregate in aggregates {
        see_option(&aggregate.argument);
    }
}
