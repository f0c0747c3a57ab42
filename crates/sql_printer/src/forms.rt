//! The forms of queries that are printed: which queries can be printed, and that their text is read as one query.

mod characters;
mod laws;
mod queries;
mod seen;

pub use characters::{see_names, see_tables};
pub use laws::{a_printed_answer_can_be_written, an_ended_text_is_one_query};
pub use queries::printable;
