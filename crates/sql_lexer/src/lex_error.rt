use perm_values::NoMemory;
use std::error::Error;
use std::fmt;

/// Why a script has no tokens, with the offset in bytes at which that shows.
#[derive(Clone, Copy, Debug, PartialEq, Eq)]
pub enum LexError {
    /// The bytes are not UTF-8: the number of leading bytes that are.
    NotUtf8(usize),
    /// The first place where no token, blank or comment begins.
    BadCharacter(usize),
    /// The opening quote of a name or a text that is not closed.
    Unterminated(usize),
    /// The first digit of a number above 9223372036854775807.
    NumberRange(usize),
    /// There was not enough memory.
    NoMemory,
}

impl fmt::Display for LexError {
    fn fmt<W: fmt::Write>(&self, f: &mut fmt::Formatter<W>) -> fmt::Result {
        match self {
            LexError::NotUtf8(at) => write!(f, "no UTF-8 at byte {at}"),
            LexError::BadCharacter(at) => write!(f, "no token begins at byte {at}"),
            LexError::Unterminated(at) => write!(f, "the quote at byte {at} is not closed"),
            LexError::NumberRange(at) => write!(f, "the number at byte {at} is too large"),
            LexError::NoMemory => f.write_str("out of memory"),
        }
    }
}

impl Error for LexError {}

impl From<NoMemory> for LexError {
    ghost use Rattle.std.specs.Prelude.{◌≡◌};
    ghost use Rattle.sql_lexer.specs.declared.lex_error.LexError.TheVariants.{NoMemory as out_of_memory};

    ghost from_gives = { λ _ e. e ≡ out_of_memory };

    fn from(_error: NoMemory) -> LexError {
        LexError::NoMemory
    }
}
