//! Says what an answer means as SQL that people can follow.

mod alone;
mod explaining;
mod reading;

pub use explaining::explain;
