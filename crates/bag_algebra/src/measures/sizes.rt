//! How high and how large a query is.
#![tactic(auto, using(crate::proofs::Smaller::smaller))]

ghost use Rattle.std.specs.Prelude.{◌≡◌, ◌-◌, ◌^◌, min};
ghost use Rattle.bag_algebra.specs.built.Measures.{inputs_height, subs_height, inputs_size, subs_size};
ghost use Rattle.bag_algebra.specs.Inputs.{given};
ghost use Rattle.bag_algebra.specs.Measures.{height_of, size_of};

use crate::children::Inputs;
use crate::query::{Query, Sublink};

/// The height: a table or an empty FROM is 1 high, every other operator one more than the highest of its inputs and
/// its sublinks' queries. It stays at `u64::MAX` where it would be greater. It takes no memory.
#[cycle(height)]
pub fn height(query: &Query) -> u64
    ensures { result ≡ min (height_of query.now) (2 ^ 64 - 1) }
{
    inputs_height(query.inputs())
        .max(subs_height(query.sublinks()))
        .saturating_add(1)
}

#[cycle(height)]
fn inputs_height(inputs: Inputs<'_>) -> u64
    ensures { result ≡ min (inputs_height (given inputs.entry)) (2 ^ 64 - 1) }
{
    match inputs {
        Inputs::Zero => 0,
        Inputs::One(input) => height(input),
        Inputs::Two(left, right) => height(left).max(height(right)),
    }
}

#[cycle(height)]
fn subs_height(subs: &[Sublink]) -> u64
    ensures { result ≡ min (subs_height subs.now) (2 ^ 64 - 1) }
{
    let mut highest = 0;
    for sub in subs {
        highest = height(&sub.query).max(highest);
    }
    highest
}

/// The number of operators, those of sublinks' queries included. It stays at `u64::MAX` where it would be greater. It
/// takes no memory.
#[cycle(size)]
pub fn size(query: &Query) -> u64
    ensures { result ≡ min (size_of query.now) (2 ^ 64 - 1) }
{
    inputs_size(query.inputs())
        .saturating_add(subs_size(query.sublinks()))
        .saturating_add(1)
}

#[cycle(size)]
fn inputs_size(inputs: Inputs<'_>) -> u64
    ensures { result ≡ min (inputs_size (given inputs.entry)) (2 ^ 64 - 1) }
{
    match inputs {
        Inputs::Zero => 0,
        Inputs::One(input) => size(input),
        Inputs::Two(left, right) => size(left).saturating_add(size(right)),
    }
}

#[cycle(size)]
fn subs_size(subs: &[Sublink]) -> u64
    ensures { result ≡ min (subs_size subs.now) (2 ^ 64 - 1) }
{
    let mut total: u64 = 0;
    for sub in subs {
        total = total.saturating_add(size(&sub.query));
    }
    total
}
