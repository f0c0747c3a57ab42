//! The rows of classes of the same group values.
ghost use Rattle.bag_algebra.specs.Meaning.{arguments_on, functions_of};
ghost use Rattle.bag_algebra.specs.Means.{grouped};
ghost use Rattle.row_values.specs.Answers.{Gives};

use crate::input::Input;
use bag_algebra::{Aggr, Env};
use row_values::{ExecError, grouped};
use std::alloc::Global;

/// The rows of the classes with the same group values: these, then the aggregates.
///
/// `Fault` names a fault that an argument or a sum meets.
pub fn in_groups<'a>(
    alloc: Global,
    rows: Input<'a>,
    groups: &[usize],
    aggregates: &[Aggr],
    env: &Env,
) -> Result<Input<'a>, ExecError>
    ensures { Gives (grouped groups.now (functions_of aggregates.now) (arguments_on aggregates.now env.now)
        rows.entry) result }
{
    let found = grouped(alloc, rows.as_slice(), groups, aggregates, env)?;
    Ok(Input::made(found))
}
