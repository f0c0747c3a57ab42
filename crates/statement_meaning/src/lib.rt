//! What becomes of a statement: its text and what the catalog holds then, or why it is refused; laws of statements and of what
//! queries answer; and when a text says what an answer means.
#![tactic(auto)]

mod explains;
mod laws;
mod limits;
mod refusal;

pub use explains::{a_text_explains_all_that_means_the_same, a_text_explains_one_meaning};
pub use laws::{
    a_plain_answer_is_its_rows, a_query_changes_nothing, a_refused_statement_changes_nothing,
    a_stored_query_is_fresh, a_written_table_stores_nothing,
    an_explanation_means_what_its_query_means, an_impact_answers_the_rows_that_vanish,
    answers_are_as_wide_as_their_headers, delete_leaves_the_other_rows, fresh_tables_stay_fresh,
    nested_provenance_means_the_same, no_answered_row_is_lost, no_rule_wants_a_number,
    provenance_answers_are_rows_beside_witness_lists, provenance_stands_beside_the_plain_answer,
    statements_keep_catalogs_sound, the_word_asks_for_provenance, whole_statements_add_soundly,
    whole_statements_are_ready,
};
pub use limits::FILE_LIMIT;
pub use refusal::StepRefusal;
