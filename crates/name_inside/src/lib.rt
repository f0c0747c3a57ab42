//! A pass of its own over the tree of a query that breaks no rule of names and kinds: it gathers the queries inside, each
//! with its number of columns, and the names of the tables and views that are read.
//!
//! It stands apart from the first pass and from the one that makes the query, since neither asks for what it gathers: the
//! limit on the columns of queries and the names that a view notes do, of whole statements that break nothing else. It
//! asks the first pass for the columns of each query and for the scope of each core.
#![tactic(auto)]

mod first_pass;
mod gathered;
mod gathering;
mod heights;
mod noted;
mod wide;

pub use gathered::Gathered;
pub use gathering::query_inside;
pub use heights::query_height;
pub use noted::all_noted;
pub use wide::first_wide;
