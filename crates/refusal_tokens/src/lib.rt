//! What could stand where a token can't: the parser is asked, for a token of each sort, whether some script begins so.
#![tactic(auto)]

mod begins;
mod front;
mod hint;
mod laws;
mod listing;
mod standing;
mod tables;

pub use hint::token_hint;
pub use laws::all_that_the_grammar_names_is_tried;
