//! Congruence: what stands in the places of a node's inputs and of its sublinks' queries, and has the same rows or faults,
//! gives a node that has.

mod laws;

pub use laws::{nodes_over_what_stands_stand, nodes_see_rows_alone};
