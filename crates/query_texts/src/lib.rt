//! Writes queries of the algebra as SQL, one SELECT for a block of SQL, and what such texts are made of.
#![tactic(auto)]

mod clauses;
mod forms;
mod queries;
mod shapes;

pub use clauses::{TableNames, all_text, any_text, push_limit, push_ordered, push_set, table_of};
pub use forms::a_query_is_written_as_its_form;
pub use queries::query_text;
