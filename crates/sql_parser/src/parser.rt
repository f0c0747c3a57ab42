ghost use Rattle.std.specs.Prelude.{◌≡◌};
ghost use Rattle.sql_parser.specs.built.Ending as ending;
ghost use Rattle.sql_parser.specs.Spells as spec;

use crate::nesting::too_deep;
use crate::{SyntaxError, statements};
use perm_values::List;
use sql_lexer::Token;
use sql_tree::{Cursor, Script, Unread};
use std::alloc::Global;

/// The script that was read, if it reaches the end of the tokens.
fn ended(
    read: Result<Script, Unread>,
    cursor: &Cursor<'_>,
    length: usize,
) -> Result<Script, SyntaxError>
    ensures { result ≡ ending.ended read cursor.now length }
{
    match read {
        Ok(script) => match cursor.next_offset() {
            None => Ok(script),
            Some(at) => Err(SyntaxError::Unexpected(at)),
        },
        Err(Unread::Unexpected) => Err(SyntaxError::Unexpected(
            cursor.next_offset().unwrap_or(length),
        )),
        Err(Unread::NoMemory) => Err(SyntaxError::NoMemory),
    }
}

/// The tree of a script that is `length` bytes long. `TooDeep` comes exactly where `too_deep` has an offset, otherwise
/// `Unexpected` exactly where the tokens spell no script, at the first token with which they begin none, or at `length`
/// where they begin one; it fails otherwise only for want of memory.
pub fn script(alloc: Global, tokens: &List<Token<'_>>, length: usize) -> Result<Script, SyntaxError>
    ensures { spec.Parses tokens.now length result }
{
    if let Some(at) = too_deep(tokens) {
        return Err(SyntaxError::TooDeep(at));
    }
    let mut cursor = Cursor::new(alloc, tokens.as_slice());
    let read = statements::script(&mut cursor);
    ended(read, &cursor, length)
}
