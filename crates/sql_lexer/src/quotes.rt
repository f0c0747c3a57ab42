ghost use Rattle.std.specs.Prelude.{◌≡◌, ◌<◌, ◌+◌, ◌^◌, ◌∷◌, ◌≤◌, length, option_map, IfOk, IfSome};
ghost use Rattle.std.specs.Str.{IsUtf8};
ghost use Rattle.sql_lexer.specs.Bytes.{class_of};
ghost use Rattle.sql_lexer.specs.Reading as spec;
ghost use Rattle.sql_lexer.specs.Undoubled.{undoubled};

use crate::piece::Piece;
use crate::scan::{Class, begins_with, text_of};
use crate::{LexError, Token, TokenKind};
use perm_values::{Bytes, Chars, NoMemory};
use std::alloc::Global;

/// The number of bytes behind an opening quote up to and with the quote that closes it; `None` where none does.
fn up_to_quote(quote: u8, rest: &[u8]) -> Option<usize>
    ensures value { result ≡ option_map (λ found. found.len) (spec.unquoted quote rest.now) }
    ensures within { IfSome result (λ len. (0 < len) × (len ≤ length rest.now)) }
{
    let mut at = 0;
    while at < rest.len() {
        let byte = rest[at];
        if byte != quote {
            at += 1;
        } else if begins_with(&rest[at + 1..], quote) {
            at += 2;
        } else {
            return Some(at + 1);
        }
    }
    None
}

fn kind_of(quote: u8) -> TokenKind
    ensures { result ≡ spec.kind_of quote }
{
    if quote == b'"' {
        TokenKind::Quoted
    } else {
        TokenKind::Text
    }
}

/// The name or the text that begins with a quote.
pub(crate) fn quoted(at: usize, quote: u8, rest: &[u8]) -> Result<Piece<'_>, LexError>
    requires quote { class_of quote ≡ Class.Quote }
    requires utf8 { IsUtf8 (quote ∷ rest.now) }
    requires fits { at + length rest.now + 1 < 2 ^ 64 }
    ensures { spec.Reads result (spec.closed at quote (spec.unquoted quote rest.now)) }
{
    match up_to_quote(quote, rest) {
        None => Err(LexError::Unterminated(at)),
        Some(len) => {
            let inside = &rest[..len - 1];
            Ok(Piece::Found(Token::new(kind_of(quote), at, inside)))
        }
    }
}

/// What is left behind a byte between two quotes, or behind two where they are a pair of quotes.
fn behind_one(quote: u8, byte: u8, rest: &[u8]) -> &[u8]
    ensures value { undoubled quote (byte ∷ rest.now) ≡ byte ∷ undoubled quote result.now }
    ensures fewer { length result.now ≤ length rest.now }
{
    if byte != quote {
        return rest;
    }
    match rest {
        [_, behind @ ..] => behind,
        [] => rest,
    }
}

/// The bytes between two quotes, with each pair of quotes as one.
fn single_quotes(alloc: Global, quote: u8, mut rest: &[u8]) -> Result<Bytes, NoMemory>
    ensures { IfOk result (λ bytes. bytes ≡ undoubled quote rest.entry.now) }
{
    let mut inside = Bytes::with_room(alloc, rest.len())?;
    while let [byte, behind @ ..] = rest {
        inside.add(&[*byte])?;
        rest = behind_one(quote, *byte, behind);
    }
    Ok(inside)
}

/// The characters between two quotes.
pub(crate) fn undoubled(alloc: Global, quote: u8, inside: &[u8]) -> Result<Chars, NoMemory>
    requires { IsUtf8 (undoubled quote inside.now) }
    ensures { IfOk result (λ text. text ≡ undoubled quote inside.now) }
{
    if inside.contains(&quote) {
        let bytes = single_quotes(alloc, quote, inside)?;
        text_of(alloc, bytes.as_slice())
    } else {
        text_of(alloc, inside)
    }
}
