//! The rules that rewrite LIMIT, INTERSECT and EXCEPT to a plain query with the rows of its PROVENANCE.

mod columns;
mod others;
mod rules;

pub use rules::{except, intersect, limit};
