//! Prints the answer of a query as SQL, and chooses the text of an EXPLAIN: with names, read back, or the plain one.
#![tactic(auto)]

mod answers;
mod cores;
mod explained;
mod expressions;
mod forms;
mod groups;
mod naming;
mod printing;
mod rows;

pub use answers::{a_printed_answer_is_read_back, a_printed_answer_means_the_answer};
pub use cores::a_printed_copy_is_read_back;
pub use explained::explain;
pub use expressions::{
    a_printed_expression_is_read_back, columns_are_found_by_their_printed_names,
};
pub use forms::{a_printed_answer_can_be_written, an_ended_text_is_one_query};
pub use groups::printed_groups_are_read_back;
pub use naming::tables_named;
pub use printing::print;
pub use rows::{
    an_answer_is_read_with_its_rows, an_expression_is_read_with_its_value,
    unused_sublinks_leave_the_value,
};
