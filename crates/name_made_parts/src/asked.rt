//! What the second pass of name analysis asks of the first: the kinds that operands, columns and operands of set operations
//! take, the scope of FROM, and what a subquery shows.

mod cores;
mod items;
mod queries;
mod reading;
mod united;

pub(crate) use cores::condition_of;
pub use cores::{
    MadeCondition, behind_aggregates, clauses_of, groups_of, kept_of, listed_of, nothing_kept,
    scope_grouped, scope_or_none,
};
pub use items::item_kind;
pub use queries::{chain_kinds, limit_keys};
pub use reading::shown_names;
pub use united::{
    alike_behind, alike_of_all, alike_of_arms, alike_of_case, alike_of_three, alike_of_two,
    kind_or_any, scalar_kind, tested_kind,
};
