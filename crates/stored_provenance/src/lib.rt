//! Tables that store provenance: how one is made, whether it is fresh, and what it then stands for.
#![tactic(auto)]

mod catalog;
mod fresh;
mod kept;
mod laws;
mod storing;

pub use catalog::catalogs_stay_sound;
pub use fresh::{FreshState, freshness};
pub use laws::{a_fresh_table_stands_for_its_query, a_new_stored_query_is_sound};
pub use storing::store;
