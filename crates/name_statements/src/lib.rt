//! What statements rest on beside what is made of their queries and values: what they break by their own names, the limits,
//! and what a query answers.
#![tactic(auto)]

mod letting_go;
mod limits;
mod made;
mod monotone;
mod own;
mod queries;
mod seen;
mod tables;
mod whole_queries;

pub use letting_go::{
    let_catalog_go, let_condition_go, let_found_go, let_query_go, let_resolved_go, let_rows_go,
    let_statement_go, let_statements_go,
};
pub use limits::within;
pub use made::{delete_of, impact_of, insert_of, table_of, view_of, with_row, with_value};
pub use monotone::{monotone_made, monotone_with};
pub use own::own_break;
pub use queries::{Whole, answer_of, around_alone, entry_of, stored_break};
pub use seen::{
    alone, boolean_break, delete_break, repeated_columns, repeats_break, rows_break, table_limit,
    table_scope, taken, unknown_table, unknown_view, used,
};
pub use tables::{copy, create_table, text_of};
pub use whole_queries::{gathered_within, whole_with};
