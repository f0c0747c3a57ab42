//! The value of an expression on a row, and of a sublink over the rows of its query; and rows in classes, with their
//! aggregates.
#![tactic(auto)]

mod error;
mod expression;
mod groups;
mod operand;
mod operate;
mod sublink;

pub use error::ExecError;
pub use expression::{eval, value_alone, value_at, value_or_null, values_at};
pub use groups::grouped;
pub use operate::{holds, is_null};
pub use sublink::{optional_value, sub_value};
