//! What each node of a query means, by the counts of rows; what it means over what has the same rows, or stands for its inputs;
//! which witness lists a row of it has, by membership; what a query means over others in the place of its tables; and dependent
//! joins that ordinary joins serve.
#![tactic(auto)]

mod congruence;
mod laws;
mod replaced;
mod spines;
mod sublinks;
mod witnesses;

pub use congruence::{nodes_over_what_stands_stand, nodes_see_rows_alone};
pub use laws::{
    aggregate_has_a_row_for_each_class, aggregates_look_at_what_is_not_null,
    base_has_its_inputs_rows, dependent_join_multiplies_counts, distinct_has_each_row_once,
    every_bag_can_be_listed, every_row_is_in_one_class, except_takes_counts_away,
    filter_keeps_what_is_true, intersect_has_the_smaller_count, join_multiplies_counts,
    laws_leave_no_choice, limit_takes_the_first_rows, project_adds_counts,
    provenance_is_each_row_beside_its_witnesses, single_has_the_empty_row, table_has_its_rows,
    union_adds_counts, what_counts_is_a_member, what_is_bad_meets_a_fault,
};
pub use replaced::{
    a_query_in_place_of_a_table_is_read, a_query_in_place_of_a_table_keeps_the_columns,
    a_table_may_be_replaced_by_a_query_with_its_rows, queries_in_place_of_tables_are_read,
    queries_in_place_of_tables_keep_the_columns, tables_in_their_own_places_change_nothing,
    tables_may_be_replaced_by_queries_with_their_rows, what_does_not_read_a_table_stays,
};
pub use spines::{
    Spine, beside, dependent_joins_over_spines_are_joins, join_spine, placed, spine_of,
};
pub use sublinks::{sublinks_come_first, sublinks_have_their_values};
pub use witnesses::{
    aggregate_lists_its_class, contributions_are_lists_of_chosen_rows,
    dependent_join_lists_rows_under_left_rows, distinct_and_limit_keep_lists,
    filter_and_project_add_contributions, flattened_lists_stand_in_the_cross_base,
    join_lists_pairs_and_unmatched_rows, set_operations_combine_lists, sources_list_their_rows,
};
