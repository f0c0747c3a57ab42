//! Queries gone through along their first inputs by a loop: a chain of set operations or of joins is as many nodes over one another
//! there, and it may be as long as a script.

mod dropped;
mod monotone;

pub use dropped::let_go_along;
pub use monotone::is_monotone_along;
