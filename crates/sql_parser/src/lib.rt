//! Reads the syntax tree of a script from its tokens (ISO/IEC 9075-2, cut to the grammar in `sql_tree/specs/grammar/Grammar.antt`).
#![tactic(auto)]

mod expression;
mod laws;
mod nesting;
mod parser;
mod recursion;
mod statements;
mod syntax_error;

pub use laws::{
    a_script_has_one_tree, a_spelled_script_is_regular, an_unexpected_token_has_no_tree,
    an_unexpected_token_has_one_offset, computed_trees_are_spelled,
    operators_are_read_by_their_table, tokens_spell_a_script_or_one_is_unexpected,
};
pub use nesting::too_deep;
pub use parser::script;
pub use syntax_error::SyntaxError;
