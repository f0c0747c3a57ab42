ghost use Rattle.std.specs.Prelude.{◌≡◌, ◌+◌, IfOk};
ghost use Rattle.sql_lexer.specs.Reading.{token_of};
ghost use Rattle.sql_lexer.specs.Spelled.{IsHeld, number_by, spelled_by, width};

use crate::quotes::undoubled;
use crate::scan::text_of;
use crate::words::{lowered, value_of};
use perm_values::{Chars, NoMemory};
use std::alloc::Global;
use std::marker::Model;

/// What a token is.
#[derive(Clone, Copy, PartialEq, Eq)]
pub enum TokenKind {
    /// A letter or `_`, then letters, digits and `_`: a keyword or a regular identifier.
    Word,
    /// A delimited identifier, between double quotes.
    Quoted,
    /// Decimal digits.
    Number,
    /// A character string literal, between single quotes.
    Text,
    /// An operator or a delimiter.
    Symbol,
}

/// A token of a script. What follows from its text isn't held: a script has up to a token a byte.
#[derive(Drop)]
pub struct Token<'a> {
    kind: TokenKind,
    start: usize,
    /// The bytes of a word, of a number or of a symbol, or those between quotes, as they stand in the script.
    text: &'a [u8],
}

impl<'a> Model for Token<'a> {
    ghost use Rattle.std.specs.Prelude.{◌+◌};
    ghost use Rattle.sql_lexer.specs.Spelled.{IsHeld, Spelled, number_by, spelled_by, width};

    ghost Value = { Spelled };

    ghost view = { λ t. record {
      kind = t.kind;
      start = t.start;
      end = t.start + width t.kind t.text.now;
      spelled = spelled_by t.kind t.text.now;
      number = number_by t.kind t.text.now;
    } };

    ghost invariant = { λ t. IsHeld t.kind t.start t.text.now };
}

/// The number of bytes that a token takes with this text.
fn taken(kind: TokenKind, text: &[u8]) -> usize
    ensures { result ≡ width kind text.now }
{
    match kind {
        TokenKind::Quoted | TokenKind::Text => text.len() + 2,
        TokenKind::Word | TokenKind::Number | TokenKind::Symbol => text.len(),
    }
}

impl<'a> Token<'a> {
    pub(crate) fn new(kind: TokenKind, start: usize, text: &'a [u8]) -> Token<'a>
        requires { IsHeld kind start text.now }
        ensures { result ≡ token_of kind start (start + width kind text.now) (spelled_by kind text.now)
            (number_by kind text.now) }
    {
        Token { kind, start, text }
    }

    pub fn kind(&self) -> TokenKind
        ensures { result ≡ self.now.kind }
    {
        self.kind
    }

    /// The offset of its first byte.
    pub fn start(&self) -> usize
        ensures { result ≡ self.now.start }
    {
        self.start
    }

    /// The offset behind its last byte.
    pub fn end(&self) -> usize
        ensures { result ≡ self.now.end }
    {
        self.start + taken(self.kind, self.text)
    }

    /// The value of a number, and 0 in other tokens.
    pub fn number(&self) -> i64
        ensures { result ≡ self.now.number }
    {
        match self.kind {
            TokenKind::Number => match value_of(self.text) {
                Some(value) => value,
                None => unreachable!(),
            },
            TokenKind::Word | TokenKind::Quoted | TokenKind::Text | TokenKind::Symbol => 0,
        }
    }

    /// The bytes that stand for it in the script, without the quotes around them; `<>` stands for `!=`.
    pub fn text(&self) -> &'a [u8]
        ensures { self.now.spelled ≡ spelled_by self.now.kind result.now }
    {
        self.text
    }

    /// A word in lower case, the characters between quotes, the digits of a number, or a symbol. It fails only for want
    /// of memory.
    pub fn spelled(&self, alloc: Global) -> Result<Chars, NoMemory>
        ensures { IfOk result (λ text. text ≡ self.now.spelled) }
    {
        match self.kind {
            TokenKind::Word => lowered(alloc, self.text),
            TokenKind::Quoted => undoubled(alloc, b'"', self.text),
            TokenKind::Text => undoubled(alloc, b'\'', self.text),
            TokenKind::Number | TokenKind::Symbol => text_of(alloc, self.text),
        }
    }
}
