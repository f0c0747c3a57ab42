//! Reads the levels of expressions above primaries: AND, OR and NOT, comparisons and the other predicates, arithmetic.
#![tactic(auto)]

mod connectives;
mod predicates;
mod sums;
mod tail;
mod words;

pub use connectives::Connectives;
pub use predicates::Predicates;
pub use sums::Sums;
