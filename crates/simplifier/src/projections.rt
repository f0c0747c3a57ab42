//! Projections to columns, raised through filters and joins.

mod carried;
mod filters;
mod joins;
mod sides;
mod whole;

pub use filters::filter_raised;
pub use joins::join_raised;
pub use whole::whole_dropped;
