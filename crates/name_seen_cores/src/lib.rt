//! The kinds of expressions, step by step over parts that were answered or refused, what sublinks ask of their queries,
//! and what cores, SELECT lists and set operations show.
#![tactic(auto)]

mod expressions;
mod from;
mod grouping;
mod listing;
mod names;
mod places;
mod queries;
mod sets;
mod standing;
mod sublinks;

pub use expressions::{
    aggregated, answered, chain_gives, column, first_need, in_argument, kind_over, operands_with,
};
pub use from::{Facts, QueryShown, Reading, put_item, read_named, read_shown};
pub use grouping::{behind_groups, grouped_scope, is_grouped, places_of_groups};
pub use listing::{add_star, add_table_star, add_value};
pub use queries::{asks_provenance, core_word, query_over};
pub use sets::{add_operand, add_shown};
pub use standing::in_clause;
pub use sublinks::{
    InnerColumns, add_inner, exists_over, in_tested, kind_of_first, scalar_over, tested_over,
};
