ghost use Rattle.std.specs.Prelude.{◌≡◌, ◌<◌, ◌+◌, ◌^◌, length, option_map, pos, drop, slice_index, Ok, IfSome, OnSome};
ghost use Rattle.std.specs.Str.{IsUtf8};
ghost use Rattle.sql_lexer.specs.Reading as spec;

use crate::piece::Piece;
use crate::scan::{Class, begins_with, class_of, line_len};
use crate::{LexError, Token, TokenKind};

/// The symbol of two bytes, as it is held.
fn pair(first: u8, rest: &[u8]) -> Option<&'static str>
    ensures value { option_map (λ held. held.now) result ≡ spec.pair_at first rest.now }
    ensures nonempty { OnSome result (0 < length rest.now) }
    ensures two { IfSome result (λ held. length held.now ≡ 2) }
{
    match (first, rest) {
        (b'<', [b'>', ..]) | (b'!', [b'=', ..]) => Some("<>"),
        (b'<', [b'=', ..]) => Some("<="),
        (b'>', [b'=', ..]) => Some(">="),
        _ => None,
    }
}

fn symbol(start: usize, held: &[u8]) -> Piece<'_>
    requires utf8 { IsUtf8 held.now }
    requires fits { start + length held.now < 2 ^ 64 }
    ensures { spec.Reads (Ok result)
        (spec.one TokenKind.Symbol start (start + length held.now) held.now (pos 0)) }
{
    Piece::Found(Token::new(TokenKind::Symbol, start, held))
}

/// The symbol of one byte.
fn single(at: usize, text: &[u8]) -> Result<Piece<'_>, LexError>
    requires nonempty { 0 < length text.now }
    requires fits { at + 1 < 2 ^ 64 }
    ensures { spec.Reads result (spec.single at (slice_index text.now 0)) }
{
    match class_of(text[0]) {
        Class::Single => Ok(symbol(at, &text[..1])),
        _ => Err(LexError::BadCharacter(at)),
    }
}

/// The comment or the symbol at the front.
#[tactic(auto, unfolding(crate::specs::Reading::comment_or_symbol))]
pub(crate) fn comment_or_symbol(at: usize, text: &[u8]) -> Result<Piece<'_>, LexError>
    requires nonempty { 0 < length text.now }
    requires fits { at + length text.now < 2 ^ 64 }
    ensures { spec.Reads result (spec.comment_or_symbol at (slice_index text.now 0) (drop 1 text.now)) }
{
    let first = text[0];
    let rest = &text[1..];
    if first == b'-' && begins_with(rest, b'-') {
        return Ok(Piece::Skipped(at + (2 + line_len(&rest[1..]))));
    }
    match pair(first, rest) {
        Some(held) => Ok(symbol(at, held.as_bytes())),
        None => single(at, text),
    }
}
