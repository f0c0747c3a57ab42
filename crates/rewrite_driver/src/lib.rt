//! Takes PROVENANCE out of a query, a node at a time: what stands for a node over what stands for its parts, and a rewriting
//! of a node over rewritings of its parts.
#![tactic(auto)]

mod driver;
mod joins;
mod rules;
mod standing;
mod sublinks;

pub use driver::eliminate;
