//! Laws of witness lists: what the lists of a row are, node by node, by membership.

mod bases;
mod lists;
mod sublinks;

pub use bases::flattened_lists_stand_in_the_cross_base;
pub use lists::{
    aggregate_lists_its_class, dependent_join_lists_rows_under_left_rows,
    distinct_and_limit_keep_lists, filter_and_project_add_contributions,
    join_lists_pairs_and_unmatched_rows, set_operations_combine_lists, sources_list_their_rows,
};
pub use sublinks::contributions_are_lists_of_chosen_rows;
