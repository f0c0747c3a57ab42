//! Where an offset stands in a script: the line and the column, as a person counts them.

mod laws;
mod line;
mod place;

pub use laws::characters_have_places_of_their_own;
pub use line::line_at;
pub(crate) use place::begins_character;
pub use place::{TextPlace, place_of};
