//! The script that is made from a number.

mod laws;
mod made;

pub use laws::a_generated_text_is_a_script;
pub use made::generate;
