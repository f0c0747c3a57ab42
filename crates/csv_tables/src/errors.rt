//! The lines that name why a run ends, made without the allocator: a refusal is written as it is, however little memory is
//! left.

mod line;
mod lines;

pub use line::Line;
pub use lines::{data_line, error_line};
