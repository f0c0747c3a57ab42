ghost use Rattle.std.specs.Prelude.{◌≡◌};
ghost use Rattle.sql_lexer.specs.Lexes.{Lexes};
ghost use Rattle.name_seen_parts.specs.declared.refusal.Refusal.TheVariants.{Break as Broken};
ghost use Rattle.perm_engine.specs.meaning.Scripts.{IsReading, break_at, no_tokens};

use name_meaning::{Break, Rule};
use name_seen_parts::Refusal;
use perm_values::List;
use sql_lexer::{LexError, Token, tokens};
use sql_parser::{SyntaxError, script};
use sql_tree::Script;
use std::alloc::Global;

/// The greatest length of a script, in bytes.
pub const SCRIPT_LIMIT: usize = 1 << 20;

/// The script that the bytes spell; a break says why they spell none.
pub fn script_of(alloc: Global, bytes: &[u8]) -> Result<Script, Refusal>
    ensures { IsReading bytes.now result }
{
    match tokens(alloc, bytes) {
        Ok(found) => tree_of(alloc, &found, bytes),
        Err(error) => Err(no_tokens(error)),
    }
}

/// The refusal of bytes that have no tokens.
fn no_tokens(error: LexError) -> Refusal
    ensures { result ≡ no_tokens error }
{
    match error {
        LexError::NotUtf8(at) => broken(Rule::NotText, at),
        LexError::BadCharacter(at) => broken(Rule::StrayCharacter, at),
        LexError::Unterminated(at) => broken(Rule::OpenText, at),
        LexError::NumberRange(at) => broken(Rule::LongNumber, at),
        LexError::NoMemory => Refusal::NoMemory,
    }
}

/// The script that these tokens of the bytes spell.
fn tree_of(alloc: Global, found: &List<Token<'_>>, bytes: &[u8]) -> Result<Script, Refusal>
    requires { Lexes bytes.now found.now }
    ensures { IsReading bytes.now result }
{
    match script(alloc, found, bytes.len()) {
        Ok(tree) => Ok(tree),
        Err(SyntaxError::Unexpected(at)) => Err(broken(Rule::UnexpectedToken, at)),
        Err(SyntaxError::TooDeep(at)) => Err(broken(Rule::DeepNesting, at)),
        Err(SyntaxError::NoMemory) => Err(Refusal::NoMemory),
    }
}

/// The refusal of a script by a rule that it breaks at an offset.
fn broken(rule: Rule, at: usize) -> Refusal
    ensures { result ≡ Broken (break_at rule at) }
{
    Refusal::Break(Break { rule, at })
}
