//! How a join with sublinks in its condition is rewritten: from any rewriting of its pairs, whatever rewrites the sublinks.

mod laws;
mod parts;
mod sides;
mod sublinks;

pub use laws::{inner_joins_rewrite_as_chosen_pairs, outer_joins_rewrite_by_parts};
pub use parts::join_by_parts;
pub use sublinks::{Crossed, every_pair, join_with, over_pairs};
