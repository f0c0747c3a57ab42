//! Writes tokens with blanks behind each.
ghost use Rattle.std.specs.Prelude.{[], IfOk, OnOk};
ghost use Rattle.std.specs.List.{AllByRecursion};
ghost use Rattle.sql_lexer.specs.Printing.{IsSpanned};
ghost use Rattle.tree_texts.specs.layout.Woven.{AddsBlanks, AddsGap, IsWoven};

use crate::layout::{Gap, Layout};
use perm_values::{Bytes, NoMemory};
use sql_lexer::Token;
use std::alloc::Global;

/// Ends a line, and begins the next one so far in.
fn push_line(depth: usize, laid: &mut Bytes) -> Result<(), NoMemory>
    ensures { OnOk result (AddsBlanks laid.old laid.new) }
{
    laid.add(b"\n")?;
    for _step in 0..depth {
        laid.add(b"  ")?;
    }
    Ok(())
}

/// Writes what stands behind a token that these follow.
fn push_gap(
    layout: &mut Layout,
    token: &Token,
    others: &[Token],
    laid: &mut Bytes,
) -> Result<(), NoMemory>
    ensures { OnOk result (AddsGap token.now others.now laid.old laid.new) }
{
    match layout.behind(token, others)? {
        Gap::Nothing => Ok(()),
        Gap::Blank => {
            laid.add(b" ")?;
            Ok(())
        }
        Gap::Line(depth) => {
            push_line(depth, laid)?;
            Ok(())
        }
    }
}

/// The tokens of a text, laid out.
pub(crate) fn woven(alloc: Global, text: &[u8], tokens: &[Token]) -> Result<Bytes, NoMemory>
    requires { AllByRecursion (IsSpanned text.now) tokens.now }
    ensures { IfOk result (IsWoven text.now tokens.now []) }
{
    let mut laid = Bytes::with_room(alloc, text.len())?;
    let mut layout = Layout::new(alloc);
    for (number, token) in tokens.iter().enumerate() {
        laid.add(&text[token.start()..token.end()])?;
        push_gap(&mut layout, token, &tokens[number + 1..], &mut laid)?;
    }
    Ok(laid)
}
