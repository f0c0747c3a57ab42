//! Carries out a statement whose names are looked up, over a catalog and files: what changes the catalog, and what a query, an
//! IMPACT and an EXPLAIN answer.
#![tactic(auto)]

mod answering;
mod changes;
mod fresh;
mod losing;
mod order;
mod ran;
mod runner;
mod stepping;

pub use answering::{create_table_as, select};
pub use fresh::show_fresh;
pub use losing::impact;
pub use ran::Ran;
pub use runner::Runner;
pub use stepping::step;
