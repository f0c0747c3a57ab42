//! What a person may write in the place of what is refused: advice for what people try from other SQLs, names of the script that are
//! spelt nearly so, and what a field of a CSV file looks like.
#![tactic(auto)]

mod advice;
mod clues;
mod distance;
mod fields;
mod hints;
mod names;
mod near;
mod pieces;
mod slices;
mod tables;

pub use fields::{field_advice, field_count, field_of, separator_advice};
pub use hints::script_hint;
pub use slices::{from, up_to};
