//! Which rows of a query vanish where rows of a table are deleted.
#![tactic(auto)]

mod answer;
mod reduced;
mod vanishing;

pub use answer::impact;
pub use vanishing::{
    a_monotone_query_gains_no_row_by_a_deletion,
    a_row_vanishes_where_each_of_its_lists_has_a_doomed_row,
    where_a_table_is_not_read_nothing_changes,
};
