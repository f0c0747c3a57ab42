//! Grouping: rows in classes of the same group values, and the aggregates of each class.

mod aggregate;
mod class;
mod column;
mod foremost;
mod grouping;

pub use grouping::grouped;
