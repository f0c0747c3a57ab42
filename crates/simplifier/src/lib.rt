//! A simpler query in the place of a query without PROVENANCE.
#![tactic(auto)]

mod alike;
mod asked;
mod bare;
mod below;
mod folding;
mod forced;
mod passes;
mod projections;
mod raising;

pub use folding::folded_query;
pub use passes::{simplify, tests_lowered};
