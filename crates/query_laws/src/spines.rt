//! Dependent joins that ordinary joins serve: their right side is a tower of selections and projections without sublinks over a
//! query that reads no outer row and meets no fault.

mod joining;
mod laws;
mod placing;
mod spine;

pub use joining::{beside, join_spine};
pub use laws::dependent_joins_over_spines_are_joins;
pub use placing::placed;
pub use spine::{Spine, spine_of};
