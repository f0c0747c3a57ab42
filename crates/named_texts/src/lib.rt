//! Writes queries as SQL that people can follow: tables and columns by their own names. No clause says what such a text means:
//! whoever prints one reads it back.
#![tactic(auto)]

mod called;
mod columns;
mod expressions;
mod lists;
mod names;
mod queries;
mod sources;
mod sublinks;
mod words;

pub use queries::named_text;
