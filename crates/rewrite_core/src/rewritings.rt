//! What a rewriting is: laws on rewritings and on what stands for a query, and joins of a rewriting with other rows.

mod beside;
mod kept;
mod laws;
mod unions;

pub use beside::rewritings_stand_beside_lists;
pub use kept::{
    columns_kept, differs_from_first, join_kept, join_on_first_columns, same_as_first, sum,
};
pub use laws::{
    closed_sublinks_read_no_outer_row, distinct_rows_of_rewritings_stand_for_provenance,
    queries_without_places_rewrite_as_what_stands, standing_is_reflexive_and_transitive,
};
pub use unions::{UnionSide, before_nulls};
