//! What a rewriting is, and the rules that rewrite a node without sublinks to a plain query with the rows of its PROVENANCE.
#![tactic(auto)]

mod columns;
mod grouping;
mod joins;
mod nodes;
mod rewritings;
mod sets;
mod sources;
mod unions;

pub use grouping::aggregate;
pub use joins::join;
pub use nodes::{distinct, filter, project};
pub use rewritings::{
    closed_sublinks_read_no_outer_row, columns_kept,
    distinct_rows_of_rewritings_stand_for_provenance,
    queries_without_places_rewrite_as_what_stands, rewritings_stand_beside_lists,
    standing_is_reflexive_and_transitive, sum,
};
pub use sets::{except, intersect, limit};
pub use sources::base;
pub use unions::union_of;
