//! What a command line asks for, which script the bytes of a file are, what a run of it is, and how it ends: what is written then,
//! and a status; the script that is made from a number; the steps of a run, and laws of runs.

mod generation;
mod headline;
mod laws;
mod sameness;
mod script;
mod status;
mod steps;
mod stopping;
mod words;

pub use generation::{a_generated_text_is_a_script, generate};
pub use headline::{
    a_query_has_the_word_or_not, a_query_is_refused_or_asks, a_run_is_the_course_of_its_statements,
    every_run_is_told_by_the_headline, the_contents_of_a_run_are_sound,
    the_word_in_from_asks_for_provenance, without_the_word_a_query_breaks_no_more,
    without_the_word_no_provenance_stands_in_front,
};
pub use laws::bytes_are_one_script;
pub use sameness::{a_misspelling_has_one_break, told_files_have_one_run};
pub use script::{SCRIPT_LIMIT, script_of};
pub use status::Status;
pub use steps::{a_run_has_numbers_left, carried_out};
pub use stopping::{finish, refuse, stop};
pub use words::{
    Wanted, a_number_lies_in_its_range, a_word_without_a_dash_is_a_script, other_words_are_refused,
    read_words,
};
