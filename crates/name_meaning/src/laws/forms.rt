//! Laws of what a statement means: what names make is well formed, at the outermost closed, and has a column.

mod laws;

pub use laws::{
    expressions_are_well_formed, outermost_queries_are_closed, queries_are_answers,
    queries_are_well_formed, queries_have_a_column,
};
