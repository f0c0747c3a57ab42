//! The rules of queries (ISO/IEC 9075-2, 'query expression'), which get the functions that read expressions and inner queries.
#![tactic(auto)]

mod from;
mod grammar;
mod select;
mod set_operations;

pub use grammar::Queries;
