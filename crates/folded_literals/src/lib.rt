//! Expressions with the values of what stands over literals alone in its place, and nodes over such expressions.
#![tactic(auto)]

mod constants;
mod folding;
mod lists;
mod nodes;

pub use constants::constant_kind;
pub use folding::folded;
pub use lists::{folded_aggregates, folded_items, folded_option};
pub use nodes::{add_folded, aggregate_folded, filter_folded, join_folded, project_folded};
