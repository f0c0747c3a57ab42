//! What stands of a place's statement in front of it.
ghost use Rattle.std.specs.Prelude.{◌≡◌, IfOk, MatchOption, cond};
ghost use Rattle.refusal_tokens.specs.Fronts.{HasNoFront, IsFront, is_semicolon, statement_start};

use crate::begins::has_refusal;
use perm_values::NoMemory;
use refusal_hints::{from, up_to};
use sql_lexer::{Token, lexing_is_unique, tokens};
use sql_tree::{Sort, same_sort, sort_of};
use std::alloc::Global;

/// What stands between the last semicolon in front of the place and the place; none where the bytes in front of it have no tokens. It
/// fails only for want of memory.
pub(crate) fn front_at(alloc: Global, script: &[u8], at: usize) -> Result<Option<&[u8]>, NoMemory>
    ensures { IfOk result (λ front.
        MatchOption front (HasNoFront script.now at) (λ found. IsFront script.now at found.now)) }
{
    lexing_is_unique();
    let before = up_to(script, at);
    match tokens(alloc, before) {
        Ok(found) => Ok(Some(from(before, statement_start(found.as_slice())))),
        Err(error) => {
            has_refusal(error)?;
            Ok(None)
        }
    }
}

/// The place behind the last semicolon; 0 where there is none.
#[tactic(auto, using(crate::proofs::Saying::start_more))]
fn statement_start(tokens: &[Token<'_>]) -> usize
    ensures { result ≡ statement_start tokens.now }
{
    let mut start = 0;
    for token in tokens {
        start = start_behind(token, start);
    }
    start
}

/// Where a statement stands behind a token: behind a semicolon, or where it stood before.
fn start_behind(token: &Token<'_>, start: usize) -> usize
    ensures { result ≡ cond (is_semicolon token.now) token.now.end start }
{
    if is_semicolon(token) {
        token.end()
    } else {
        start
    }
}

fn is_semicolon(token: &Token<'_>) -> bool
    ensures { result ≡ is_semicolon token.now }
{
    same_sort(sort_of(token), Sort::Semicolon)
}
