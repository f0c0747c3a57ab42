//! The items of a node on a row.
ghost use Rattle.row_nodes.specs.Runs.{item_values};
ghost use Rattle.row_values.specs.Answers.{Gives};

use bag_algebra::{Env, Item};
use perm_values::{Row, Value};
use row_values::{ExecError, eval};
use std::alloc::Global;

/// The values of the items on a row, all of which are evaluated. The answers are the values of the node's sublinks.
///
/// `Fault` names a fault that an item meets.
pub fn item_values(
    alloc: Global,
    items: &[Item],
    row: &Row,
    answers: &[Value],
    env: &Env,
) -> Result<Row, ExecError>
    ensures { Gives (item_values items.now env.now answers.now row.now) result }
{
    let mut values = Row::new(alloc);
    for item in items {
        values.push(eval(alloc, &item.expr, row, answers, env)?)?;
    }
    Ok(values)
}
