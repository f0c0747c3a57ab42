ghost use Rattle.std.specs.Prelude.{◌≡◌, Err, IfOk, IfErr, List as ItemsOf};
ghost use Rattle.std.specs.Str.{IsUtf8};
ghost use Rattle.sql_lexer.specs.Lexes as spec;
ghost use Rattle.sql_lexer.specs.declared.token.Token.{Token};
ghost use Rattle.sql_lexer.specs.declared.lex_error.LexError.{LexError};
ghost use Rattle.sql_lexer.specs.declared.lex_error.LexError.TheVariants.{NoMemory};

use crate::piece::{Piece, piece_at};
use crate::{LexError, Token};
use perm_values::List;
use std::alloc::Global;

/// Splits a script that is UTF-8.
fn split(alloc: Global, bytes: &[u8]) -> Result<List<Token<'_>>, LexError>
    requires { IsUtf8 bytes.now }
    ensures lexes { IfOk result (λ tokens. spec.Lexes bytes.now tokens) }
    ensures refused { IfErr result (spec.MayRefuse bytes.now) }
    ensures memory { result ≡ Err NoMemory → spec.BeginsWithTokens bytes.now }
{
    let mut found = List::new(alloc);
    let mut at = 0;
    while at < bytes.len() {
        match piece_at(bytes, at)? {
            Piece::Skipped(end) => at = end,
            Piece::Found(token) => {
                at = token.end();
                found.push(token)?;
            }
        }
    }
    Ok(found)
}

/// Splits a script into its tokens, in order (ISO/IEC 9075-2, 'token and separator').
///
/// It takes the longest token at each place; blanks and comments stand between tokens and may be absent.
/// `NotUtf8` comes where the bytes are not UTF-8, and of `BadCharacter`, `Unterminated` and `NumberRange` the first by
/// place. `NoMemory` comes only for want of memory, and only where a token stands before all that is refused: what
/// needs no memory is refused also where there is none.
pub fn tokens(alloc: Global, bytes: &[u8]) -> Result<List<Token<'_>>, LexError>
    ensures lexes { IfOk result (λ tokens. spec.Lexes bytes.now tokens) }
    ensures refused { IfErr result (spec.MayRefuse bytes.now) }

    // Both ways: the one list of a script is given, and so is its one refusal.
    ensures only { (list : ItemsOf Token) → spec.Lexes bytes.now list → spec.GivesList result list }
    ensures memory { result ≡ Err NoMemory → spec.BeginsWithTokens bytes.now }
    ensures refusal { (error : LexError) → spec.Refuses bytes.now error → spec.GivesRefusal result error }
{
    match std::str::from_utf8(bytes) {
        Ok(_) => split(alloc, bytes),
        Err(error) => Err(LexError::NotUtf8(error.valid_up_to())),
    }
}
