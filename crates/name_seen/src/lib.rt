//! What a query shows without being made: its first break, or its columns, its scopes and the facts that its provenance
//! rests on.
#![tactic(auto)]

mod cores;
mod expressions;
mod queries;
mod sets;
mod sources;

pub use expressions::{
    expression_seen, kind_of, operand, operands, operands_of_arms, operands_of_steps,
};
pub use queries::query_seen;
pub use sets::set_seen;
pub use sources::{from_scope, read_source};
