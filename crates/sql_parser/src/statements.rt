//! Statements.

ghost use Rattle.std.specs.Prelude.{◌≡◌, ◌<◌, ◌≤◌, [], ◌∷◌, ◌++◌, length, IfOk};
ghost use Rattle.sql_tree.specs.grammar.Building as b;
ghost use Rattle.sql_tree.specs.grammar.Cursors as spec;
ghost use Rattle.sql_tree.specs.grammar.Lists.{listed};
ghost use Rattle.sql_parser.specs.built.Statements as spelled;
ghost use Rattle.sql_tree.specs.grammar.Symbols as n;
ghost use Rattle.sql_tree.specs.declared.grammar.sort.Sort.TheVariants as s;

use crate::recursion::{condition, expr, query};
use perm_values::{Boxed, Chars, Kind, List, NoMemory};
use sql_lexer::Token;
use sql_primaries::kind_of;
use sql_tree::{
    ColumnDef, Cursor, ExprTree, Script, Sort, Statement, StatementBody, Unread, ValuesRow, list_of,
};
use std::alloc::Global;

/// What begins a statement.
const STATEMENTS: [Sort; 10] = [
    Sort::Create,
    Sort::Copy,
    Sort::Insert,
    Sort::Delete,
    Sort::Drop,
    Sort::Explain,
    Sort::Show,
    Sort::Impact,
    Sort::Select,
    Sort::Opening,
];

const KINDS: [Sort; 4] = [Sort::Integer, Sort::Int, Sort::BigInt, Sort::Text];

#[tactic(auto, using(sql_tree::proofs::Steps::column_kind_is))]
fn column_kind(cursor: &mut Cursor<'_>) -> Result<Kind, Unread>
    ensures given { spec.Reads result (spec.reading n.ColumnKind cursor.old) cursor.new }
    ensures fewer { IfOk result (λ _. length cursor.new < length cursor.old) }
{
    Ok(kind_of(cursor.one(&KINDS)?))
}

#[tactic(auto, using(sql_tree::proofs::Steps::column_is))]
fn column_def(cursor: &mut Cursor<'_>) -> Result<ColumnDef, Unread>
    ensures given { spec.Reads result (spec.reading n.Column cursor.old) cursor.new }
    ensures fewer { IfOk result (λ _. length cursor.new < length cursor.old) }
{
    let name = cursor.name()?;
    let kind = column_kind(cursor)?;
    Ok(ColumnDef { name, kind })
}

fn column_defs(cursor: &mut Cursor<'_>) -> Result<List<ColumnDef>, Unread>
    ensures given { spec.Reads result (listed s.Comma (spec.reading n.Column) cursor.old) cursor.new }
    ensures fewer { IfOk result (λ _. length cursor.new ≤ length cursor.old) }
{
    list_of(
        cursor,
        Sort::Comma,
        |cursor: &mut Cursor<'_>| column_def(cursor),
    )
}

#[tactic(auto, using(crate::proofs::Stating::columns_is))]
fn columns(cursor: &mut Cursor<'_>) -> Result<List<ColumnDef>, Unread>
    ensures given { spec.Reads result (spec.reading n.Columns cursor.old) cursor.new }
    ensures fewer { IfOk result (λ _. length cursor.new < length cursor.old) }
{
    cursor.past(Sort::Opening)?;
    let columns = column_defs(cursor)?;
    cursor.past(Sort::Closing)?;
    Ok(columns)
}

/// The field that stands for NULL; none is the empty one.
fn null_field_of(alloc: Global, null: Option<&Token<'_>>) -> Result<Chars, NoMemory>
    ensures { IfOk result (λ field. field ≡ spelled.null_field_of null.entry) }
{
    match null {
        Some(token) => token.spelled(alloc),
        None => Chars::from_text(alloc, ""),
    }
}

#[tactic(auto)]
fn null<'a>(cursor: &mut Cursor<'a>) -> Result<Option<&'a Token<'a>>, Unread>
    ensures given { spec.Sees spelled.null_seen result (spelled.null cursor.old) cursor.new }
    ensures fewer { IfOk result (λ _. length cursor.new ≤ length cursor.old) }
{
    if !cursor.sees(Sort::Null) {
        return Ok(None);
    }
    cursor.past(Sort::Null)?;
    Ok(Some(cursor.one(&[Sort::Literal])?))
}

#[tactic(auto, using(crate::proofs::Stating::copy_is, crate::proofs::Stating::null_field_is))]
fn copy(cursor: &mut Cursor<'_>) -> Result<StatementBody, Unread>
    ensures given { spec.Reads result (spec.reading n.Copy cursor.old) cursor.new }
    ensures fewer { IfOk result (λ _. length cursor.new < length cursor.old) }
{
    cursor.past(Sort::Copy)?;
    let table = cursor.name()?;
    cursor.past(Sort::From)?;
    let file = cursor.one(&[Sort::Literal])?;
    let header = cursor.passes(Sort::Header)?;
    let null = null(cursor)?;
    let null_field = null_field_of(cursor.alloc(), null)?;
    let file = file.spelled(cursor.alloc())?;
    Ok(StatementBody::Copy {
        table,
        file,
        header,
        null_field,
    })
}

#[tactic(auto, using(sql_tree::proofs::Steps::drop_is))]
fn drop_what(cursor: &mut Cursor<'_>) -> Result<StatementBody, Unread>
    ensures given { spec.Reads result (spec.reading n.Drop cursor.old) cursor.new }
    ensures fewer { IfOk result (λ _. length cursor.new < length cursor.old) }
{
    cursor.past(Sort::Drop)?;
    if cursor.sees(Sort::Table) {
        cursor.past(Sort::Table)?;
        Ok(StatementBody::DropTable {
            table: cursor.name()?,
        })
    } else {
        cursor.past(Sort::View)?;
        Ok(StatementBody::DropView {
            view: cursor.name()?,
        })
    }
}

#[tactic(auto, using(sql_tree::proofs::Steps::show_is))]
fn show(cursor: &mut Cursor<'_>) -> Result<StatementBody, Unread>
    ensures given { spec.Reads result (spec.reading n.Show cursor.old) cursor.new }
    ensures fewer { IfOk result (λ _. length cursor.new < length cursor.old) }
{
    cursor.past(Sort::Show)?;
    cursor.past(Sort::Fresh)?;
    Ok(StatementBody::ShowFresh {
        table: cursor.name()?,
    })
}

#[tactic(auto, using(sql_tree::proofs::Steps::create_table_is))]
fn create_table(cursor: &mut Cursor<'_>) -> Result<StatementBody, Unread>
    ensures given { spec.Reads result (spec.reading n.CreateTable cursor.old) cursor.new }
    ensures fewer { IfOk result (λ _. length cursor.new < length cursor.old) }
{
    cursor.past(Sort::Table)?;
    let table = cursor.name()?;
    if cursor.sees(Sort::Opening) {
        let columns = columns(cursor)?;
        return Ok(StatementBody::CreateTable { table, columns });
    }
    cursor.past(Sort::As)?;
    let query = query(cursor)?.into_inner();
    Ok(StatementBody::CreateTableAs { table, query })
}

#[tactic(auto, using(sql_tree::proofs::Steps::create_view_is))]
fn create_view(cursor: &mut Cursor<'_>) -> Result<StatementBody, Unread>
    ensures given { spec.Reads result (spec.reading n.CreateView cursor.old) cursor.new }
    ensures fewer { IfOk result (λ _. length cursor.new < length cursor.old) }
{
    cursor.past(Sort::View)?;
    let view = cursor.name()?;
    cursor.past(Sort::As)?;
    let query = query(cursor)?.into_inner();
    Ok(StatementBody::CreateView { view, query })
}

#[tactic(auto, using(sql_tree::proofs::Steps::create_is))]
fn create(cursor: &mut Cursor<'_>) -> Result<StatementBody, Unread>
    ensures given { spec.Reads result (spec.reading n.Create cursor.old) cursor.new }
    ensures fewer { IfOk result (λ _. length cursor.new < length cursor.old) }
{
    cursor.past(Sort::Create)?;
    if cursor.sees(Sort::Table) {
        create_table(cursor)
    } else {
        create_view(cursor)
    }
}

/// Expressions with commas between them.
fn expressions(cursor: &mut Cursor<'_>) -> Result<List<ExprTree>, Unread>
    ensures given { spec.Reads result (spec.reading n.Exprs cursor.old) cursor.new }
    ensures fewer { IfOk result (λ _. length cursor.new ≤ length cursor.old) }
{
    list_of(cursor, Sort::Comma, |cursor: &mut Cursor<'_>| {
        Ok(expr(cursor)?.into_inner())
    })
}

#[tactic(auto, using(sql_tree::proofs::Steps::row_is))]
fn row(cursor: &mut Cursor<'_>) -> Result<ValuesRow, Unread>
    ensures given { spec.Reads result (spec.reading n.Row cursor.old) cursor.new }
    ensures fewer { IfOk result (λ _. length cursor.new < length cursor.old) }
{
    let at = cursor.offset();
    cursor.past(Sort::Opening)?;
    let values = expressions(cursor)?;
    cursor.past(Sort::Closing)?;
    Ok(ValuesRow { at, values })
}

fn rows(cursor: &mut Cursor<'_>) -> Result<List<ValuesRow>, Unread>
    ensures given { spec.Reads result (listed s.Comma (spec.reading n.Row) cursor.old) cursor.new }
    ensures fewer { IfOk result (λ _. length cursor.new ≤ length cursor.old) }
{
    list_of(cursor, Sort::Comma, |cursor: &mut Cursor<'_>| row(cursor))
}

#[tactic(auto, using(crate::proofs::Stating::insert_is))]
fn insert(cursor: &mut Cursor<'_>) -> Result<StatementBody, Unread>
    ensures given { spec.Reads result (spec.reading n.Insert cursor.old) cursor.new }
    ensures fewer { IfOk result (λ _. length cursor.new < length cursor.old) }
{
    cursor.past(Sort::Insert)?;
    cursor.past(Sort::Into)?;
    let table = cursor.name()?;
    cursor.past(Sort::Values)?;
    let rows = rows(cursor)?;
    Ok(StatementBody::Insert { table, rows })
}

#[tactic(auto, using(sql_tree::proofs::Steps::explain_is))]
fn explain(cursor: &mut Cursor<'_>) -> Result<StatementBody, Unread>
    ensures given { spec.Reads result (spec.reading n.Explain cursor.old) cursor.new }
    ensures fewer { IfOk result (λ _. length cursor.new < length cursor.old) }
{
    cursor.past(Sort::Explain)?;
    cursor.past(Sort::Rewrite)?;
    let query = query(cursor)?.into_inner();
    Ok(StatementBody::Explain { query })
}

#[tactic(auto, using(sql_tree::proofs::Steps::delete_is))]
fn delete(cursor: &mut Cursor<'_>) -> Result<StatementBody, Unread>
    ensures given { spec.Reads result (spec.reading n.Delete cursor.old) cursor.new }
    ensures fewer { IfOk result (λ _. length cursor.new < length cursor.old) }
{
    cursor.past(Sort::Delete)?;
    cursor.past(Sort::From)?;
    let table = cursor.name()?;
    let condition = condition(cursor)?.map(Boxed::into_inner);
    Ok(StatementBody::Delete { table, condition })
}

#[tactic(auto, using(crate::proofs::Stating::impact_is))]
fn impact(cursor: &mut Cursor<'_>) -> Result<StatementBody, Unread>
    ensures given { spec.Reads result (spec.reading n.Impact cursor.old) cursor.new }
    ensures fewer { IfOk result (λ _. length cursor.new < length cursor.old) }
{
    cursor.past(Sort::Impact)?;
    cursor.past_both(Sort::Delete, Sort::From)?;
    let table = cursor.name()?;
    let doomed = condition(cursor)?.map(Boxed::into_inner);
    cursor.past(Sort::Of)?;
    let query = query(cursor)?.into_inner();
    Ok(StatementBody::Impact {
        table,
        condition: doomed,
        query,
    })
}

fn statement_body(cursor: &mut Cursor<'_>) -> Result<StatementBody, Unread>
    ensures given { spec.Reads result (spelled.statement_body cursor.old) cursor.new }
    ensures fewer { IfOk result (λ _. length cursor.new < length cursor.old) }
{
    if cursor.sees(Sort::Create) {
        create(cursor)
    } else if cursor.sees(Sort::Copy) {
        copy(cursor)
    } else if cursor.sees(Sort::Insert) {
        insert(cursor)
    } else if cursor.sees(Sort::Delete) {
        delete(cursor)
    } else if cursor.sees(Sort::Drop) {
        drop_what(cursor)
    } else if cursor.sees(Sort::Explain) {
        explain(cursor)
    } else if cursor.sees(Sort::Show) {
        show(cursor)
    } else if cursor.sees(Sort::Impact) {
        impact(cursor)
    } else {
        let query = query(cursor)?.into_inner();
        Ok(StatementBody::Select { query })
    }
}

#[tactic(auto, using(crate::proofs::Stating::statement_is))]
fn statement(cursor: &mut Cursor<'_>) -> Result<Statement, Unread>
    ensures given { spec.Reads result (spec.reading n.StatementOf cursor.old) cursor.new }
    ensures fewer { IfOk result (λ _. length cursor.new < length cursor.old) }
{
    let at = cursor.offset();
    let body = statement_body(cursor)?;
    Ok(Statement { at, body })
}

fn optional_statement(cursor: &mut Cursor<'_>) -> Result<Option<Statement>, Unread>
    ensures given { spec.Reads result (spelled.optional_statement cursor.old) cursor.new }
    ensures fewer { IfOk result (λ _. length cursor.new ≤ length cursor.old) }
{
    if cursor.sees_any(&STATEMENTS) {
        Ok(Some(statement(cursor)?))
    } else {
        Ok(None)
    }
}

/// Keeps a statement that is there.
fn keep(kept: &mut List<Statement>, statement: Option<Statement>) -> Result<(), NoMemory>
    ensures { IfOk result (λ _. kept.new ≡ kept.old ++ b.present (statement ∷ [])) }
{
    match statement {
        Some(statement) => kept.push(statement),
        None => Ok(()),
    }
}

/// The statements that are there, with semicolons between them.
fn statements(cursor: &mut Cursor<'_>) -> Result<List<Statement>, Unread>
    ensures given { spec.Reads result (spelled.statements cursor.old) cursor.new }
    ensures fewer { IfOk result (λ _. length cursor.new ≤ length cursor.old) }
{
    let mut kept = List::new(cursor.alloc());
    keep(&mut kept, optional_statement(cursor)?)?;
    while cursor.sees(Sort::Semicolon) {
        cursor.past(Sort::Semicolon)?;
        keep(&mut kept, optional_statement(cursor)?)?;
    }
    Ok(kept)
}

/// A whole script.
#[tactic(auto, using(crate::proofs::Stating::script_is))]
pub(crate) fn script(cursor: &mut Cursor<'_>) -> Result<Script, Unread>
    ensures given { spec.Reads result (spec.reading n.ScriptOf cursor.old) cursor.new }
    ensures fewer { IfOk result (λ _. length cursor.new ≤ length cursor.old) }
{
    Ok(Script {
        statements: statements(cursor)?,
    })
}
