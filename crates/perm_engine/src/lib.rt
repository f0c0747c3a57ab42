//! Runs scripts of SQL with provenance: from a command line and files to what is written and a status.
#![tactic(auto)]

mod meaning;
mod run;
mod session;

pub use meaning::{
    SCRIPT_LIMIT, Status, Wanted, a_generated_text_is_a_script, a_number_lies_in_its_range,
    a_query_has_the_word_or_not, a_query_is_refused_or_asks, a_run_has_numbers_left,
    a_run_is_the_course_of_its_statements, a_word_without_a_dash_is_a_script, bytes_are_one_script,
    generate, other_words_are_refused, read_words, the_contents_of_a_run_are_sound,
    the_word_in_from_asks_for_provenance, told_files_have_one_run,
    without_the_word_a_query_breaks_no_more, without_the_word_no_provenance_stands_in_front,
};
pub use run::perm;
pub use session::Session;

// The types of which these calls speak.
pub use perm_catalog::Catalog;
pub use perm_io::{Files, Sink};
pub use perm_values::{Bytes, Chars, NoMemory};
pub use sql_tree::Statement;
pub use statement_meaning::StepRefusal;
pub use statement_steps::{Ran, Runner};
