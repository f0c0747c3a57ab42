//! The arguments of aggregates, evaluated on all rows.
ghost use Rattle.std.specs.Prelude.{◌≡◌, ◌<◌, IfOk, IfErr, All, length};
ghost use Rattle.std.specs.List.{AllZip};
ghost use Rattle.bag_algebra.specs.Meaning.{optional_value, arguments_on};
ghost use Rattle.bag_algebra.specs.Outcome.{each};
ghost use Rattle.row_values.specs.Answers.{Refuses};
ghost use Rattle.row_values.specs.Columns.{IsAggregateColumn, Distributes, AreEmpty};

use crate::error::ExecError;
use crate::sublink::optional_value;
use bag_algebra::{AggFn, Aggr, Env, Expr};
use perm_values::{List, NoMemory, Row, Value};
use std::alloc::Global;

/// An aggregate function, and for each class the values of its argument on the rows of the class.
#[derive(Drop)]
pub(crate) struct Column {
    pub function: AggFn,
    pub values: List<List<Value>>,
}

/// The columns of all aggregates, over rows with the numbers of their classes.
pub(crate) fn columns_of(
    alloc: Global,
    aggregates: &[Aggr],
    rows: &[Row],
    numbers: &[usize],
    count: usize,
    env: &Env,
) -> Result<List<Column>, ExecError>
    requires long { length numbers.now ≡ length rows.now }
    requires within { All (λ number. number < count) numbers.now }
    ensures ok { IfOk result (AllZip (IsAggregateColumn env.now rows.now numbers.now count) aggregates.now) }
    ensures err { IfErr result (Refuses (each (arguments_on aggregates.now env.now) rows.now)) }
{
    let mut columns = List::new(alloc);
    for aggregate in aggregates {
        let function = aggregate.function;
        let values = distributed(alloc, &aggregate.argument, rows, numbers, count, env)?;
        columns.push(Column { function, values })?;
    }
    Ok(columns)
}

/// The argument's values on the rows of each class.
fn distributed(
    alloc: Global,
    argument: &Option<Expr>,
    rows: &[Row],
    numbers: &[usize],
    count: usize,
    env: &Env,
) -> Result<List<List<Value>>, ExecError>
    requires long { length numbers.now ≡ length rows.now }
    requires within { All (λ number. number < count) numbers.now }
    ensures ok { IfOk result (Distributes (optional_value argument.now env.now) rows.now numbers.now count) }
    ensures err { IfErr result (Refuses (each (optional_value argument.now env.now) rows.now)) }
{
    let mut classes = empty_classes(alloc, count)?;
    for i in 0..rows.len() {
        let value = optional_value(alloc, argument, &rows[i], env)?;
        classes[numbers[i]].push(value)?;
    }
    Ok(List::from_vec(classes))
}

fn empty_classes(alloc: Global, count: usize) -> Result<Vec<List<Value>>, NoMemory>
    ensures { IfOk result (λ classes. AreEmpty count classes.items) }
{
    let mut classes = Vec::with_capacity(alloc, count)?;
    for _class in 0..count {
        classes.push(List::new(alloc))?;
    }
    Ok(classes)
}
