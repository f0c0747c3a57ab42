//! What a node makes of rows that are there, and gives for what its inputs gave: set operations, groups, limits, items, and the
//! pairs of joins; and what is known of its sublinks, and remembered, from row to row.
#![tactic(auto)]

mod groups;
mod input;
mod items;
mod join;
mod keeping;
mod known;
mod limit;
mod marks;
mod memory;
mod results;
mod set_operation;

pub use groups::in_groups;
pub use input::{Input, made, single_row, table_rows};
pub use items::item_values;
pub use join::{hashed_pairs, meets_by_keys, more_met, tries_by_keys};
pub use keeping::Keeping;
pub use known::{Keyed, Known, KnownAnswer, cells_value, known_subs, same_rows, tests_equality};
pub use limit::limited;
pub use results::{
    Screened, distinct_rows, except_rows, group_rows, intersect_rows, kept_rows, limit_rows,
    union_rows, whole_rows,
};
pub use set_operation::{distinct, excepted, intersected, united};
