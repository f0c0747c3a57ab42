//! What a person is told of a refusal: the line that names it is read back, and told in a sentence, with its place and, in a script,
//! with a piece of the script's line and a mark under the place; and what may help.
#![tactic(auto)]

mod cause;
mod excerpt;
mod hints;
mod line;
mod notes;
mod places;
mod read;
mod sentence;

pub use cause::Cause;
pub use notes::note;
pub use places::{characters_have_places_of_their_own, line_at};
pub use read::cause_of;
