//! Splits a script into the tokens of SQL (ISO/IEC 9075-2, 'token and separator').
#![tactic(auto)]

mod laws;
mod lex_error;
mod piece;
mod quotes;
mod reserved;
mod scan;
mod split;
mod symbols;
mod token;
mod words;

pub use laws::{lexing_is_unique, printed_tokens_are_read, spans_rise};
pub use lex_error::LexError;
pub use reserved::is_reserved;
pub use split::tokens;
pub use token::{Token, TokenKind};
pub use words::is_word;
