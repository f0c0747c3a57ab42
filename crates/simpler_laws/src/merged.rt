//! Nodes that are merged with what stands below them, over the results of the calls that make that.

mod distinct;
mod joins;
mod merging;
mod substituting;

pub use distinct::{distinct_once, gives_once};
pub use joins::inner_pairs;
pub use merging::{input_of, project_merged};
pub use substituting::substituted;
