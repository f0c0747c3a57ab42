//! What names mean and of which kinds expressions are: the first pass of name analysis, which answers the first break.
#![tactic(auto)]

mod clauses;
mod forms;
mod from_columns;
mod kinds;
mod named;
mod needs;
mod operands;
mod refusal;
mod scopes;
mod standing;
mod stars;

pub use clauses::{
    ShownColumn, condition_over, count_break, group_places, grouped, groups_break, has_aggregate,
    keys_break, operand_break, unite, word_break,
};
pub use forms::{aggregated_kind, column_kind, condition_kind, count_kind};
pub use from_columns::{
    add_item, add_items, item_break, kinds_of_columns, label_of, named_columns, names_of, no_items,
    places_of, scope_name, settled_columns, texts_of,
};
pub use kinds::{is_same_kind, united_kind, unites};
pub use named::{Named, item_number, named_in};
pub use needs::{gives_of, need_of};
pub use operands::Operands;
pub use refusal::Refusal;
pub use scopes::{Scopes, inside, look_up, place_among, ungrouped};
pub use standing::{Around, Here, Standing, is_lateral};
pub use stars::{is_of, star, table_star};
