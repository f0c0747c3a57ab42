//! Laws of queries in the place of tables: over queries that have the columns and the rows of its tables a
//! query means the same, and has the columns and the places that it had.

mod each_table;
mod one_table;

pub use each_table::{
    queries_in_place_of_tables_are_read, queries_in_place_of_tables_keep_the_columns,
    tables_in_their_own_places_change_nothing, tables_may_be_replaced_by_queries_with_their_rows,
};
pub use one_table::{
    a_query_in_place_of_a_table_is_read, a_query_in_place_of_a_table_keeps_the_columns,
    a_table_may_be_replaced_by_a_query_with_its_rows, what_does_not_read_a_table_stays,
};
