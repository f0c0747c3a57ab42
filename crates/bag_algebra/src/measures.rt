//! How large a query is, how many columns it has, and the tests of queries: plain, over tables, free of faults.

mod faults;
mod kinds;
mod laws;
mod scopes;
mod sizes;

pub use faults::{all_fault_free, fault_free, faultless, items_faultless};
pub use kinds::{exact_width, width};
pub use laws::{
    expressions_have_one_kind, fault_free_queries_meet_no_fault,
    faultless_expressions_meet_no_fault, more_sublinks_change_nothing,
    well_formed_queries_read_their_outer_rows_alone,
};
pub use scopes::{is_plain, is_table, over_tables};
pub use sizes::{height, size};
