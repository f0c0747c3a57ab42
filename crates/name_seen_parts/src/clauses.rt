//! What the clauses of a query show over parts that were answered or refused: the first break of each, and which columns
//! and groups they mean.

mod aggregates;
mod breaks;
mod column;
mod counted;
mod keys;
mod operands;

pub use aggregates::has_aggregate;
pub use breaks::{condition_over, group_places, grouped, groups_break, word_break};
pub use column::ShownColumn;
pub use counted::count_break;
pub use keys::keys_break;
pub use operands::{operand_break, unite};
