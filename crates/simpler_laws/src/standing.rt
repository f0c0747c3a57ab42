//! Nodes over what stands for their parts, taken as the results of the calls that make these.

mod nodes;
mod sublinks;

pub use nodes::{
    aggregate_standing, apply_standing, except_standing, filter_standing, intersect_standing,
    join_standing, limit_standing, project_standing, union_standing,
};
pub use sublinks::add_standing;
