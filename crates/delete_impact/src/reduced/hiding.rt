//! Whether faults of a query hide others.
#![tactic(auto, using(bag_algebra::proofs::Smaller::smaller))]

ghost use Rattle.std.specs.Prelude.{◌≡◌, ◌&&◌, ◌||◌};
ghost use Rattle.std.specs.List.{list_all};
ghost use Rattle.bag_algebra.specs.FaultFree.{fault_free, faultless, items_faultless};
ghost use Rattle.bag_algebra.specs.Inputs.{given};
ghost use Rattle.delete_impact.specs.reduced.Hiding.{hides_none, own_hides_none};

use bag_algebra::{Expr, Inputs, Item, Query, fault_free, faultless, items_faultless};

/// Whether in the query, which is monotone, no fault hides another: each condition and each list of items that may fault is
/// looked at on rows of queries that can meet no fault. It takes no memory.
#[cycle(hides_none)]
pub fn hides_none(query: &Query) -> bool
    ensures { result ≡ hides_none query.now }
{
    own_hides_none(query) && inputs_hide_none(query.inputs())
}

#[cycle(hides_none)]
fn inputs_hide_none(inputs: Inputs<'_>) -> bool
    ensures { result ≡ list_all hides_none (given inputs.entry) }
{
    match inputs {
        Inputs::Zero => true,
        Inputs::One(input) => hides_none(input),
        Inputs::Two(left, right) => hides_none(left) && hides_none(right),
    }
}

/// Whether no fault of the inputs hides one of the topmost node.
fn own_hides_none(query: &Query) -> bool
    ensures { result ≡ own_hides_none query.now }
{
    match query {
        Query::Table { .. } => true,
        Query::Single => true,
        Query::Base { .. } => true,
        Query::Filter {
            input,
            condition,
            ..
        } => shows_filter(input.get(), condition),
        Query::Project { input, items, .. } => shows_items(input.get(), items.as_slice()),
        Query::Join {
            left,
            right,
            condition,
            ..
        } => shows_pairs(left.get(), right.get(), condition),
        Query::Apply { .. } => false,
        Query::Union { .. } => true,
        Query::Intersect { .. } => false,
        Query::Except { .. } => false,
        Query::Distinct { .. } => true,
        Query::Aggregate { .. } => false,
        Query::Limit { .. } => false,
        Query::Prov { .. } => false,
    }
}

fn shows_filter(input: &Query, condition: &Expr) -> bool
    ensures { result ≡ (faultless condition.now || fault_free input.now) }
{
    faultless(condition) || fault_free(input)
}

fn shows_items(input: &Query, items: &[Item]) -> bool
    ensures { result ≡ (items_faultless items.now || fault_free input.now) }
{
    items_faultless(items) || fault_free(input)
}

fn shows_pairs(left: &Query, right: &Query, condition: &Expr) -> bool
    ensures { result ≡ (faultless condition.now || (fault_free left.now && fault_free right.now)) }
{
    faultless(condition) || both_fault_free(left, right)
}

fn both_fault_free(left: &Query, right: &Query) -> bool
    ensures { result ≡ (fault_free left.now && fault_free right.now) }
{
    fault_free(left) && fault_free(right)
}
