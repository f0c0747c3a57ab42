//! Whether a query reads a table.
#![tactic(auto, using(bag_algebra::proofs::Smaller::smaller))]

ghost use Rattle.std.specs.Prelude.{◌≡◌, option_copied};
ghost use Rattle.bag_algebra.specs.Inputs.{given};
ghost use Rattle.delete_impact.specs.reduced.Reads.{first_kinds, first_of};

use bag_algebra::{Inputs, Query};
use perm_values::{Kind, List};

/// The kinds of the first table of the identity that the query reads, sublinks aside; `None` where it reads none.
#[cycle(first_kinds)]
pub fn first_kinds(query: &Query, id: u64) -> Option<&List<Kind>>
    ensures { option_copied result ≡ first_kinds id query.now }
{
    match query {
        Query::Table { id: own, kinds } => { if *own == id { Some(kinds) } else { None } }
        _ => first_of(query.inputs(), id),
    }
}

#[cycle(first_kinds)]
fn first_of(inputs: Inputs<'_>, id: u64) -> Option<&List<Kind>>
    ensures { option_copied result ≡ first_of id (given inputs.entry) }
{
    match inputs {
        Inputs::Zero => None,
        Inputs::One(input) => first_kinds(input, id),
        Inputs::Two(left, right) => match first_kinds(left, id) {
            Some(kinds) => Some(kinds),
            None => first_kinds(right, id),
        },
    }
}
