//! The smallest parts of expressions (ISO/IEC 9075-2, 'value expression primary'): literals, columns, functions, CASE and
//! parentheses, which get the functions that read inner expressions and queries.
#![tactic(auto)]

mod calls;
mod grammar;
mod primary;

pub use grammar::Primaries;
pub use primary::{LITERALS, kind_of, literal};
