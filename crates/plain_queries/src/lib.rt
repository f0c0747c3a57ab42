//! The plain query in the place of one with PROVENANCE: what is run for a query, and what is printed of it.
#![tactic(auto)]

mod alike;
mod plain;

pub use plain::plain_query;
