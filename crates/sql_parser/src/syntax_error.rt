use perm_values::NoMemory;
use std::error::Error;
use std::fmt;

/// Why tokens have no tree, with the offset in bytes at which that shows.
#[derive(Clone, Copy, Debug, PartialEq, Eq)]
pub enum SyntaxError {
    /// The first token with which the tokens begin no script, or the script's length where they begin one and are none.
    Unexpected(usize),
    /// The first parenthesis or CASE that is open together with 64 others.
    TooDeep(usize),
    /// There was not enough memory.
    NoMemory,
}

impl fmt::Display for SyntaxError {
    fn fmt<W: fmt::Write>(&self, f: &mut fmt::Formatter<W>) -> fmt::Result {
        match self {
            SyntaxError::Unexpected(at) => write!(f, "no script goes on so at byte {at}"),
            SyntaxError::TooDeep(at) => write!(f, "nested too deeply at byte {at}"),
            SyntaxError::NoMemory => f.write_str("out of memory"),
        }
    }
}

impl Error for SyntaxError {}

impl From<NoMemory> for SyntaxError {
    ghost use Rattle.std.specs.Prelude.{◌≡◌};
    ghost use Rattle.sql_parser.specs.declared.syntax_error.SyntaxError.TheVariants.{NoMemory as out_of_memory};

    ghost from_gives = { λ _ error. error ≡ out_of_memory };

    fn from(_error: NoMemory) -> SyntaxError {
        SyntaxError::NoMemory
    }
}
