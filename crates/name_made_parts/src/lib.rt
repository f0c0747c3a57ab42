//! What the second pass of name analysis makes without going down a tree: sources of FROM and what joins them, the scopes
//! of some of their items, columns of stars, keys, and where aggregates stand; and what it asks of the first.
#![tactic(auto)]

mod asked;
mod keys;
mod scoping;
mod shown;
mod sources;
mod standing;
mod stars;

pub use asked::{
    MadeCondition, alike_behind, alike_of_all, alike_of_arms, alike_of_case, alike_of_three,
    alike_of_two, behind_aggregates, chain_kinds, clauses_of, groups_of, item_kind, kept_of,
    kind_or_any, limit_keys, listed_of, nothing_kept, scalar_kind, scope_grouped, scope_or_none,
    shown_names, tested_kind,
};
pub use keys::keys_of;
pub use scoping::segment;
pub use shown::{ShownNames, column_names};
pub use sources::{
    behind, input_or_single, join_kind, marked_of, named_item, with_lateral, with_next, with_right,
};
pub use standing::group_count;
pub use stars::{add_star, add_table_star};
