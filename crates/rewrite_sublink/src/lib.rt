//! How a node with sublinks is rewritten to a plain query with the rows of its PROVENANCE (the strategy Gen: Glavic and Alonso,
//! EDBT 2009): the rewriting as a definition, the laws by which it is one, and the rules that make it; and how a join with sublinks
//! in its condition is rewritten from its pairs.
#![tactic(auto)]

mod candidates;
mod decisions;
mod joins;
mod laws;
mod matching;
mod rules;

pub use joins::{
    Crossed, every_pair, inner_joins_rewrite_as_chosen_pairs, join_with,
    outer_joins_rewrite_by_parts, over_pairs,
};
pub use laws::{filters_over_candidates_rewrite, projects_over_candidates_rewrite};
pub use rules::{answer_columns, beside_row, filter_with, own_items, own_rows, project_with};
