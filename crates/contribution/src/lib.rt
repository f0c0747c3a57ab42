//! The contribution of source rows to the rows of an answer: places, their names, and the laws of what queries mean and
//! of their witness lists.
#![tactic(auto)]

mod blank;
mod cross;
mod laws;
mod names;
mod parts;
mod places;

pub use blank::null_row;
pub use cross::{TableSource, cross_base};
pub use laws::{
    closed_queries_see_no_outer_row, columns_added_to_a_row_change_nothing,
    contributing_rows_keep_the_value, entries_stand_at_their_places, longer_outer_kinds_serve_too,
    meaning_rests_on_named_columns, no_row_is_lost, order_of_rows_is_free, provenance_stands_once,
    queries_read_their_tables_alone, rows_have_the_kinds, sets_of_rows_decide,
    values_added_to_outer_rows_change_nothing, values_have_their_kinds,
};
pub use names::prov_names;
pub use parts::{
    always, column, column_items, columns_at, inwards, join_on, moved, null_items, outwards,
    projection, regroup, same_columns, selection, sublink_over, table,
};
pub use places::{PlaceList, kind_or_text, kinds, kinds_at, shape};
