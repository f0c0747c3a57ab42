//! Worked examples: `specs/` pins the definitions of the crates below on values that were worked out by hand, and the
//! kernel computes each. Nothing stands on this crate, and it has no code.
#![tactic(auto)]
