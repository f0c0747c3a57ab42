//! Whether a query can be printed.
#![tactic(auto, using(bag_algebra::proofs::Smaller::smaller))]

ghost use Rattle.std.specs.Prelude.{OnOk};
ghost use Rattle.std.specs.List.{AllByRecursion};
ghost use Rattle.bag_algebra.specs.Inputs.{given};
ghost use Rattle.bag_algebra.specs.Kinds.{kinds_of};
ghost use Rattle.sql_printer.specs.forms.Printable.{OwnWritable, Printable, PrintableSub, Short};

use crate::forms::seen::{see, see_aggregates, see_items, see_option};
use bag_algebra::{Inputs, Query, Sublink, width};
use perm_values::NoMemory;

/// That the query can be printed. Want of memory where a node has 2^63 columns or more, since no text has so many. It takes
/// no memory.
#[cycle(printable)]
pub fn printable(query: &Query) -> Result<(), NoMemory>
    ensures { OnOk result (Printable query.now) }
{
    is_short(query)?;
    see_own(query);
    inputs_printable(query.inputs())?;
    sublinks_printable(query.sublinks())
}

#[cycle(printable)]
fn inputs_printable(inputs: Inputs<'_>) -> Result<(), NoMemory>
    ensures { OnOk result (AllByRecursion Printable (given inputs.entry)) }
{
    match inputs {
        Inputs::Zero => Ok(()),
        Inputs::One(input) => printable(input),
        Inputs::Two(left, right) => {
            printable(left)?;
            printable(right)
        }
    }
}

#[cycle(printable)]
fn sublinks_printable(subs: &[Sublink]) -> Result<(), NoMemory>
    ensures { OnOk result (AllByRecursion PrintableSub subs.now) }
{
    for sub in subs {
        see_option(&sub.tested);
        printable(&sub.query)?;
    }
    Ok(())
}

fn is_short(query: &Query) -> Result<(), NoMemory>
    ensures { OnOk result (Short (kinds_of query.now)) }
{
    if width(query) < usize::MAX / 2 {
        Ok(())
    } else {
        Err(NoMemory)
    }
}

/// Looks at the literals of the topmost node's own expressions.
fn see_own(query: &Query)
    ensures { OwnWritable query.now }
{
    match query {
        Query::Table { .. } => (),
        Query::Single => (),
        Query::Base { .. } => (),
        Query::Filter { condition, .. } => see(condition),
        Query::Project { items, .. } => see_items(items.as_slice()),
        Query::Join { condition, .. } => see(condition),
        Query::Apply { .. } => (),
        Query::Union { .. } => (),
        Query::Intersect { .. } => (),
        Query::Except { .. } => (),
        Query::Distinct { .. } => (),
        Query::Aggregate { aggregates, .. } => see_aggregates(aggregates.as_slice()),
        Query::Limit { .. } => (),
        Query::Prov { .. } => (),
    }
}
