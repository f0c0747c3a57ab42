//! Rows from the bytes of a CSV file, the text of an answer, and the lines that name why a run ends.
#![tactic(auto)]

mod answer;
mod data_error;
mod errors;
mod laws;
mod loading;

pub use answer::answer_text;
pub use data_error::DataError;
pub use errors::{Line, data_line, error_line};
pub use laws::answers_read_back;
pub use loading::load;
