//! What a query reads of its outer rows: whether any, how many of the first columns, and which columns of which row; and whether an
//! expression reads its own row.

mod columns;
mod laws;
mod outer_rows;
mod reads;

pub use columns::{reach, reads_own_row};
pub use laws::{
    a_query_reads_no_column_beyond_its_reach, an_expression_that_reads_no_own_column_has_one_value,
    outer_rows_are_read_no_further_than_the_query_reaches,
};
pub use outer_rows::is_closed;
pub use reads::{
    a_query_means_the_same_where_the_columns_that_it_reads_are_the_same,
    an_expression_has_one_value_where_the_columns_that_it_reads_are_the_same, nearest_places,
    rows_with_the_same_values_at_the_places_give_a_query_one_meaning,
};
