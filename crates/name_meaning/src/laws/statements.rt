//! Laws of what whole statements mean: an IMPACT that breaks no rule can be answered.

mod laws;

pub use laws::impacts_can_be_answered;
