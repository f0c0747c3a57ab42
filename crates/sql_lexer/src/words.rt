ghost use Rattle.std.specs.Prelude.{◌≡◌, ◌<◌, ◌+◌, ◌^◌, length, nat_eq, slice_index, IfOk};
ghost use Rattle.std.specs.Cmp.Lexicographic.{pointwise};
ghost use Rattle.std.specs.Str.{IsUtf8, str_to_ascii_lowercase};
ghost use Rattle.sql_lexer.specs.Bytes.{class_of};
ghost use Rattle.sql_lexer.specs.Reading as spec;
ghost use Rattle.sql_lexer.specs.Spelled.{IsDigits, value_in_range};

use crate::piece::Piece;
use crate::scan::{Class, as_text, digits_len, text_of, word_len};
use crate::{LexError, Token, TokenKind};
use perm_values::{Chars, NoMemory};
use std::alloc::Global;

/// A word with its letters in lower case.
pub(crate) fn lowered(alloc: Global, word: &[u8]) -> Result<Chars, NoMemory>
    requires { IsUtf8 (str_to_ascii_lowercase word.now) }
    ensures { IfOk result (λ text. text ≡ str_to_ascii_lowercase word.now) }
{
    let lower = word.to_ascii_lowercase(alloc)?;
    text_of(alloc, lower.as_slice())
}

/// Whether a word is this one in lower case.
pub fn is_word(mut word: &[u8], mut lower: &[u8]) -> bool
    ensures { result ≡ pointwise nat_eq lower.entry.now (str_to_ascii_lowercase word.entry.now) }
{
    while let [letter, letters @ ..] = word {
        if lower.is_empty() || lower[0] != letter.to_ascii_lowercase() {
            return false;
        }
        word = letters;
        lower = &lower[1..];
    }
    lower.is_empty()
}

/// The value of digits, if it is below 2^63.
pub(crate) fn value_of(digits: &[u8]) -> Option<i64>
    requires { IsDigits digits.now }
    ensures { result ≡ value_in_range digits.now }
{
    match as_text(digits).parse::<i64>() {
        Ok(value) => Some(value),
        Err(_) => None,
    }
}

/// The word at the front.
#[tactic(auto, unfolding(crate::specs::Reading::word))]
pub(crate) fn word(at: usize, text: &[u8]) -> Result<Piece<'_>, LexError>
    requires { at + length text.now < 2 ^ 64 }
    ensures { spec.Reads result (spec.word at text.now) }
{
    let len = word_len(text);
    let letters = &text[..len];
    Ok(Piece::Found(Token::new(TokenKind::Word, at, letters)))
}

/// The number at the front.
#[tactic(auto, unfolding(crate::specs::Reading::number))]
pub(crate) fn number(at: usize, text: &[u8]) -> Result<Piece<'_>, LexError>
    requires nonempty { 0 < length text.now }
    requires digit { class_of (slice_index text.now 0) ≡ Class.Digit }
    requires fits { at + length text.now < 2 ^ 64 }
    ensures { spec.Reads result (spec.number at text.now) }
{
    let len = digits_len(text);
    let digits = &text[..len];
    match value_of(digits) {
        Some(_) => Ok(Piece::Found(Token::new(TokenKind::Number, at, digits))),
        None => Err(LexError::NumberRange(at)),
    }
}
