ghost use Rattle.std.specs.Prelude.{◌≡◌, [], List as ItemsOf, IfOk};
ghost use Rattle.std.specs.List.{AllByRecursion};
ghost use Rattle.sql_lexer.specs.Lexes.{Lexes};
ghost use Rattle.sql_lexer.specs.declared.token.Token.{Token};
ghost use Rattle.tree_texts.specs.Standing.{CanStand};
ghost use Rattle.tree_texts.specs.Texts.{shown_tokens};
ghost use Rattle.tree_texts.specs.layout.Lines.{EndsScript};
ghost use Rattle.tree_texts.specs.layout.Woven.{IsWoven};

use crate::layout::weaving::woven;
use perm_values::{Bytes, NoMemory};
use sql_lexer::{LexError, tokens};
use std::alloc::Global;

/// The tokens of a text, laid out; a text that is split into none stays.
fn query_in_lines(alloc: Global, text: &[u8]) -> Result<Bytes, NoMemory>
    ensures { IfOk result (λ laid. (tokens : ItemsOf Token) → Lexes text.now tokens
        → IsWoven text.now tokens [] laid) }
{
    match tokens(alloc, text) {
        Ok(tokens) => woven(alloc, text, tokens.as_slice()),
        Err(LexError::NoMemory) => Err(NoMemory),
        Err(_) => {
            let mut same = Bytes::new(alloc);
            same.add(text)?;
            Ok(same)
        }
    }
}

/// The text of a query as a script in lines, ended by `;` and a newline: clauses, sources and operands begin lines, and a query in
/// parentheses stands further in. It fails only for want of memory.
pub fn in_lines(alloc: Global, text: &[u8]) -> Result<Bytes, NoMemory>
    ensures { IfOk result (λ laid. (tokens : ItemsOf Token) → AllByRecursion CanStand tokens
        → text.now ≡ shown_tokens tokens → EndsScript tokens laid) }
{
    let mut laid = query_in_lines(alloc, text)?;
    laid.add(b";\n")?;
    Ok(laid)
}
