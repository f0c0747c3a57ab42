//! Laws of what a run's definition says of queries: what a query answers, with PROVENANCE and without.

mod laws;

pub use laws::{
    a_plain_answer_is_its_rows, a_query_changes_nothing, a_refused_statement_changes_nothing,
    an_explanation_means_what_its_query_means, an_impact_answers_the_rows_that_vanish,
    answers_are_as_wide_as_their_headers, nested_provenance_means_the_same,
    no_answered_row_is_lost, provenance_answers_are_rows_beside_witness_lists,
    provenance_stands_beside_the_plain_answer, the_word_asks_for_provenance,
};
