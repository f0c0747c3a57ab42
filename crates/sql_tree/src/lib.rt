//! The syntax tree of SQL: what the tokens of a script spell.
#![tactic(auto)]

mod expression;
mod grammar;
mod name;
mod query;
mod source;
mod statement;

pub use expression::{AggWord, ArmTree, ExprBody, ExprStep, ExprTree};
pub use grammar::{
    Cursor, NAMES, Nest, Sort, Unread, all_items, list_from, list_of, name_of, node, reference,
    reserved_words_are_the_lexers, same_sort, sort_of,
};
pub use name::{ColRef, Name};
pub use query::{Core, OrderKey, OrderTree, QueryTree, SelectItem, SetStep, SetTree, SetWord};
pub use source::{FromItem, FromSource, FromTree, JoinStep, JoinWord, ScopeMark};
pub use statement::{ColumnDef, Script, Statement, StatementBody, ValuesRow};
