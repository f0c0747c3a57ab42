ghost use Rattle.std.specs.Prelude.{◌≡◌, ◌<◌, drop, length};
ghost use Rattle.std.specs.Str.{IsUtf8};
ghost use Rattle.sql_lexer.specs.Reading as spec;

use crate::quotes::quoted;
use crate::scan::{Class, class_of};
use crate::symbols::comment_or_symbol;
use crate::words::{number, word};
use crate::{LexError, Token};

/// What stands at the front of a text.
#[derive(Drop)]
pub(crate) enum Piece<'a> {
    /// A blank or a comment, which ends here.
    Skipped(usize),
    Found(Token<'a>),
}

/// What stands at a place of a script.
#[tactic(auto, unfolding(crate::specs::Reading::next))]
pub(crate) fn piece_at(bytes: &[u8], at: usize) -> Result<Piece<'_>, LexError>
    requires utf8 { IsUtf8 bytes.now }
    requires within { at < length bytes.now }
    ensures { spec.Reads result (spec.next at (drop at bytes.now)) }
{
    let text = &bytes[at..];
    let first = text[0];
    let rest = &text[1..];
    match class_of(first) {
        Class::Blank => Ok(Piece::Skipped(at + 1)),
        Class::Letter => word(at, text),
        Class::Digit => number(at, text),
        Class::Quote => quoted(at, first, rest),
        Class::Single | Class::Other => comment_or_symbol(at, text),
    }
}
