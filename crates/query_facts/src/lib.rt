//! What can be told of a query by looking at it: what it reads of its outer rows, whether it is monotone, and how long its spines are.
#![tactic(auto, using(bag_algebra::proofs::Smaller::smaller))]

mod monotone;
mod reached;
mod spines;

pub use monotone::is_monotone;
pub use reached::{
    a_query_means_the_same_where_the_columns_that_it_reads_are_the_same,
    a_query_reads_no_column_beyond_its_reach,
    an_expression_has_one_value_where_the_columns_that_it_reads_are_the_same,
    an_expression_that_reads_no_own_column_has_one_value, is_closed, nearest_places,
    outer_rows_are_read_no_further_than_the_query_reaches, reach, reads_own_row,
    rows_with_the_same_values_at_the_places_give_a_query_one_meaning,
};
pub use spines::{is_monotone_along, let_go_along};
