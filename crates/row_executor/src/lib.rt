//! The rows of queries, by nested loops or by hashing.
#![tactic(auto)]

mod query;

pub use query::{run_hashed, run_plain};
pub use row_values::{ExecError, eval};
