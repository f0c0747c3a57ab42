//! Name analysis: the statement with its names looked up and its kinds settled, or the first rule that it breaks.
#![tactic(auto)]

mod analysis;
mod conditions;
mod impacts;
mod laws;
mod queries;
mod rows;

pub use analysis::resolve;
pub use laws::resolved_queries_stand;
