//! Laws of the definitions: each is the contract of a function that does nothing.
mod growth;
mod kinds;
mod order;
mod sets;
mod witnesses;

pub use growth::{
    closed_queries_see_no_outer_row, columns_added_to_a_row_change_nothing,
    longer_outer_kinds_serve_too, meaning_rests_on_named_columns,
    values_added_to_outer_rows_change_nothing,
};
pub use kinds::{rows_have_the_kinds, values_have_their_kinds};
pub use order::{order_of_rows_is_free, queries_read_their_tables_alone};
pub use sets::sets_of_rows_decide;
pub use witnesses::{
    contributing_rows_keep_the_value, entries_stand_at_their_places, no_row_is_lost,
    provenance_stands_once,
};
