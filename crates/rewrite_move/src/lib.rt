//! The rules of Filters and Projects with sublinks that join with what contributes. What is traced for a sublink is its query, and where
//! every row of that contributes, what stands below projections, DISTINCTs and groups.
#![tactic(auto)]

mod below;
mod contributions;
mod dependent;
mod forced;
mod known;
mod laws;
mod rules;
mod share;

pub use below::traced;
pub use dependent::all_dependent;
pub use laws::{traced_sublinks_contribute_the_same, what_stands_for_a_rewriting_is_one};
pub use rules::{filter_moved, filter_traced, project_moved, project_traced};
