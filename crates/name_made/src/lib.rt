//! What the names and kinds of a statement resolve to: the second pass of name analysis, over what the first pass found.
#![tactic(auto)]

mod cores;
mod expressions;
mod queries;
mod sources;

pub use expressions::made;
pub use queries::query_made;
