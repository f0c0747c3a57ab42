//! Whether some script begins with the tokens of bytes.
ghost use Rattle.std.specs.Prelude.{◌≡◌, ◌↔◌, ◌≢◌, IfOk, IsTrue, OnOk, length};
ghost use Rattle.sql_lexer.specs.Lexes.{Lexes};
ghost use Rattle.refusal_tokens.specs.Begins.{BeginsScript};

use perm_values::{List, NoMemory};
use sql_lexer::{LexError, Token, lexing_is_unique, spans_rise, tokens};
use sql_parser::{SyntaxError, script};
use sql_tree::Script;
use std::alloc::Global;

/// Whether some script begins with the tokens of the bytes, which nest within bounds. It fails only for want of memory.
pub(crate) fn begins_script(alloc: Global, bytes: &[u8]) -> Result<bool, NoMemory>
    ensures { IfOk result (λ begins. IsTrue begins ↔ BeginsScript bytes.now) }
{
    lexing_is_unique();
    match tokens(alloc, bytes) {
        Ok(found) => tokens_begin(alloc, &found, bytes),
        Err(error) => {
            has_refusal(error)?;
            Ok(false)
        }
    }
}

/// Goes on where bytes have no tokens: want of memory doesn't say so.
pub(crate) fn has_refusal(error: LexError) -> Result<(), NoMemory>
    ensures { OnOk result (error ≢ LexError.NoMemory) }
{
    match error {
        LexError::NoMemory => Err(NoMemory),
        _ => Ok(()),
    }
}

/// Whether some script begins with these tokens of the bytes.
fn tokens_begin(alloc: Global, found: &List<Token<'_>>, bytes: &[u8]) -> Result<bool, NoMemory>
    requires { Lexes bytes.now found.now }
    ensures { IfOk result (λ begins. IsTrue begins ↔ BeginsScript bytes.now) }
{
    lexing_is_unique();
    spans_rise();
    match script(alloc, found, bytes.len()) {
        Ok(tree) => {
            let_go(tree);
            Ok(true)
        }
        Err(SyntaxError::Unexpected(at)) => Ok(is_end(at, bytes)),
        Err(SyntaxError::TooDeep(_)) => Ok(false),
        Err(SyntaxError::NoMemory) => Err(NoMemory),
    }
}

fn is_end(at: usize, bytes: &[u8]) -> bool
    ensures { IsTrue result ↔ (at ≡ length bytes.now) }
{
    at == bytes.len()
}

/// Lets a tree go: what drops it stands here alone.
fn let_go(_tree: Script) {}
