//! What makes a query simpler: the tests that a condition consists of, where in a query each of them may be made, and the laws by
//! which they move there; nodes over what stands for their parts; and nodes that are merged with what stands below them.
#![tactic(auto)]

mod columns;
mod conditions;
mod filters;
mod lowering;
mod merged;
mod nodes;
mod pairs;
mod standing;

pub use columns::reads_only;
pub use conditions::{conjunction, conjuncts, is_always, with_conjuncts};
pub use filters::{Parts, filter_parts};
pub use lowering::{lowered, own_place, own_places};
pub use merged::{distinct_once, gives_once, inner_pairs, input_of, project_merged};
pub use nodes::{filter_on, inner_join, tested};
pub use pairs::{Sides, join_sides};
pub use standing::{
    add_standing, aggregate_standing, apply_standing, except_standing, filter_standing,
    intersect_standing, join_standing, limit_standing, project_standing, union_standing,
};
