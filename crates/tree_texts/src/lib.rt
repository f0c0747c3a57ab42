//! Queries as they are printed: their text, which is read as their tree.
#![tactic(auto)]

mod expressions;
mod laws;
mod layout;
mod plans;

pub use expressions::{Draft, behind, push_expr, uses};
pub use laws::{
    a_form_has_its_tree_wherever_it_stands, a_form_is_read_as_its_tree,
    a_plan_spells_its_tree_anywhere, shown_tokens_are_read,
};
pub use layout::in_lines;
pub use plans::{
    a_plan_gives_a_text_of_its_tree, a_plan_is_read, a_plan_spells_its_tree, levels_add_no_node,
    spaced_tokens_are_read, written_sorts_have_tokens,
};
