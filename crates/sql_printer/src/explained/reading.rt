//! Reads a text that was written for people, to see what it means.
ghost use Rattle.std.specs.Prelude.{◌≡◌, IfOk, IsTrue, [], ◌∷◌};
ghost use Rattle.std.specs.List.{list_all};
ghost use Rattle.statement_meaning.specs.explains.Explains.{is_plain_word};
ghost use Rattle.perm_catalog.specs.Sound.{IsSound};
ghost use Rattle.statement_meaning.specs.Ready.{CanExplain, IsReady};
ghost use Rattle.sql_printer.specs.explained.Reading.{IsWholeText, NamesTablesText, OnlyQuery, PlainText, ReadAgain, SaidIn, SaidOf};

use crate::explained::alone::tables_alone;
use crate::explained::explaining::plain_text;
use bag_algebra::{Answer, is_plain};
use name_analysis::resolve;
use name_meaning::Resolved;
use name_seen_parts::Refusal;
use name_statements::{let_resolved_go, let_statement_go, let_statements_go};
use perm_catalog::Catalog;
use perm_values::{Bytes, List, NoMemory};
use query_texts::TableNames;
use sql_lexer::{LexError, Token, tokens};
use sql_parser::{SyntaxError, a_spelled_script_is_regular, script};
use sql_tree::{Script, Sort, Statement, StatementBody, same_sort, sort_of};
use statement_meaning::{a_text_explains_one_meaning, whole_statements_are_ready};
use std::alloc::Global;

fn is_plain_word(token: &Token) -> bool
    ensures { result ≡ is_plain_word token.now }
{
    let sort = sort_of(token);
    !(same_sort(sort, Sort::Provenance) || same_sort(sort, Sort::BaseRelation))
}

fn are_plain(tokens: &[Token]) -> bool
    ensures { result ≡ list_all is_plain_word tokens.now }
{
    tokens.iter().all(|token| is_plain_word(token))
}

/// The statement that asks what a script means that is one query.
fn only_query(script: Script) -> Option<Statement>
    ensures { OnlyQuery script result }
{
    let Script { mut statements } = script;
    let last = statements.pop();
    let is_only = statements.is_empty();
    // What is left is let go in a call, so that no trees are dropped here.
    let_statements_go(statements.into_vec().into_iter());
    match last {
        Some(statement) if is_only => asking(statement),
        Some(statement) => {
            let_statement_go(statement);
            None
        }
        None => None,
    }
}

/// The statement that asks what a text means that is one query without PROVENANCE and BASERELATION, ended by `;` and a newline.
fn plain_query_of(alloc: Global, text: &[u8]) -> Result<Option<Statement>, NoMemory>
    ensures { IfOk result (PlainText text.now) }
{
    if !text.ends_with(b";\n") {
        return Ok(None);
    }
    let tokens = match tokens(alloc, text) {
        Ok(tokens) => tokens,
        Err(LexError::NoMemory) => return Err(NoMemory),
        Err(_) => return Ok(None),
    };
    if !are_plain(tokens.as_slice()) {
        return Ok(None);
    }
    match script(alloc, &tokens, text.len()) {
        Ok(script) => Ok(only_query(script)),
        Err(SyntaxError::NoMemory) => Err(NoMemory),
        Err(_) => Ok(None),
    }
}

/// The plain text of what a text is read as over the catalog; `None` where it is no plain query that breaks no rule, or names
/// another table than these, or a view. It fails only for want of memory.
pub(crate) fn read_again(
    alloc: Global,
    catalog: &Catalog,
    tables: &[TableNames],
    text: &[u8],
) -> Result<Option<Bytes>, NoMemory>
    requires { IsSound catalog.now }
    ensures { IfOk result (ReadAgain catalog.now text.now) }
{
    if !names_tables(alloc, catalog, tables, text)? {
        return Ok(None);
    }
    said_again(alloc, catalog, text)
}

/// Whether a text is one query that names none but tables of these names. It is read over these tables alone.
fn names_tables(
    alloc: Global,
    catalog: &Catalog,
    tables: &[TableNames],
    text: &[u8],
) -> Result<bool, NoMemory>
    requires { IsSound catalog.now }
    ensures { IfOk result (λ does. IsTrue does → NamesTablesText catalog.now text.now) }
{
    let alone = tables_alone(alloc, catalog, tables)?;
    let does = is_whole(alloc, &alone, text);
    drop(alone);
    does
}

/// Whether a text is one plain query that breaks no rule over the catalog.
fn is_whole(alloc: Global, catalog: &Catalog, text: &[u8]) -> Result<bool, NoMemory>
    requires { IsSound catalog.now }
    ensures { IfOk result (λ is. IsTrue is → IsWholeText catalog.now text.now) }
{
    let Some(statement) = plain_query_of(alloc, text)? else {
        return Ok(false);
    };
    match resolve(alloc, catalog, statement) {
        Ok(resolved) => {
            let_resolved_go(resolved);
            Ok(true)
        }
        Err(Refusal::NoMemory) => Err(NoMemory),
        Err(Refusal::Break(_)) => Ok(false),
    }
}

/// The plain text of what a text is read as that names tables alone.
fn said_again(alloc: Global, catalog: &Catalog, text: &[u8]) -> Result<Option<Bytes>, NoMemory>
    requires sound { IsSound catalog.now }
    requires tables { NamesTablesText catalog.now text.now }
    ensures { IfOk result (ReadAgain catalog.now text.now) }
{
    let Some(statement) = plain_query_of(alloc, text)? else {
        return Ok(None);
    };
    whole_statements_are_ready();
    a_spelled_script_is_regular();
    a_text_explains_one_meaning();
    match resolve(alloc, catalog, statement) {
        Ok(resolved) => {
            let said = said_of(alloc, catalog, &resolved);
            let_resolved_go(resolved);
            said
        }
        Err(Refusal::NoMemory) => Err(NoMemory),
        Err(Refusal::Break(_)) => Ok(None),
    }
}

/// The plain text of what an EXPLAIN asks for that is without PROVENANCE; `None` of any other statement.
fn said_of(alloc: Global, catalog: &Catalog, resolved: &Resolved) -> Result<Option<Bytes>, NoMemory>
    requires { IsReady catalog.now resolved.now }
    ensures { IfOk result (SaidOf catalog.now resolved.now) }
{
    match resolved {
        Resolved::Explain { answer } => said_plainly(alloc, catalog, answer),
        _ => Ok(None),
    }
}

/// The plain text of an answer without PROVENANCE; `None` of any other.
fn said_plainly(
    alloc: Global,
    catalog: &Catalog,
    answer: &Answer,
) -> Result<Option<Bytes>, NoMemory>
    requires { CanExplain catalog.now answer.now }
    ensures { IfOk result (SaidIn catalog.now answer.now) }
{
    if !is_plain(&answer.query) {
        return Ok(None);
    }
    Ok(Some(plain_text(alloc, catalog, answer)?))
}

/// The statement that asks what a query means; none for any other statement.
fn asking(statement: Statement) -> Option<Statement>
    ensures { OnlyQuery (record { statements = statement ∷ [] }) result }
{
    let Statement { body, at } = statement;
    match body {
        StatementBody::Select { query } => Some(Statement {
            at,
            body: StatementBody::Explain { query },
        }),
        other => {
            let_statement_go(Statement { at, body: other });
            None
        }
    }
}
