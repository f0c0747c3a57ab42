//! Which columns of its outer rows a query reads.

mod expressions;
mod laws;
mod nearest;
mod queries;

pub use laws::{
    a_query_means_the_same_where_the_columns_that_it_reads_are_the_same,
    an_expression_has_one_value_where_the_columns_that_it_reads_are_the_same,
    rows_with_the_same_values_at_the_places_give_a_query_one_meaning,
};
pub use nearest::nearest_places;
pub use queries::{OuterColumn, columns_of};
