//! Statements of what was made for them. It comes as a result, so that the statement's name is let go here where it is wanting.
ghost use Rattle.std.specs.Prelude.{◌≡◌, ◌∷◌, [], ◌++◌, IfErr, IfOk, IsErrAnd, IsOkAnd};
ghost use Rattle.name_meaning.specs.declared.answer.Resolved.TheVariants as made;

use crate::queries::{Whole, answer_of};
use crate::tables::text_of;
use bag_algebra::Expr;
use name_meaning::{Resolved, with_more};
use name_seen_parts::Refusal;
use perm_catalog::ViewEntry;
use perm_values::{List, NoMemory};
use sql_tree::Name;

/// CREATE VIEW of what the view is.
pub fn view_of(view: Name, entry: Result<ViewEntry, Refusal>) -> Result<Resolved, Refusal>
    ensures made { IfOk result (λ statement. IsOkAnd entry (λ entry.
        statement ≡ made.CreateView view.text entry)) }
    ensures refused { IfErr result (λ refusal. IsErrAnd entry (λ first. refusal ≡ first)) }
{
    match entry {
        Ok(entry) => Ok(Resolved::CreateView {
            name: text_of(view),
            entry,
        }),
        Err(refusal) => Err(refusal),
    }
}

/// CREATE TABLE AS of a whole query.
pub fn table_of(table: Name, whole: Result<Whole, Refusal>) -> Result<Resolved, Refusal>
    ensures made { IfOk result (λ statement. IsOkAnd whole (λ whole.
        statement ≡ made.CreateTableAs table.text whole.columns whole.answer whole.places)) }
    ensures refused { IfErr result (λ refusal. IsErrAnd whole (λ first. refusal ≡ first)) }
{
    match whole {
        Ok(whole) => {
            let Whole {
                answer,
                places,
                columns,
                names: _names,
            } = whole;
            Ok(Resolved::CreateTableAs {
                name: text_of(table),
                columns,
                answer,
                places,
            })
        }
        Err(refusal) => Err(refusal),
    }
}

/// One more value of a row.
pub fn with_value(values: List<Expr>, value: Result<Expr, NoMemory>) -> Result<List<Expr>, NoMemory>
    ensures { IfOk result (λ all. IsOkAnd value (λ value. all ≡ values ++ value ∷ [])) }
{
    with_more(values, value)
}

/// One more row.
pub fn with_row(
    rows: List<List<Expr>>,
    row: Result<List<Expr>, NoMemory>,
) -> Result<List<List<Expr>>, NoMemory>
    ensures { IfOk result (λ all. IsOkAnd row (λ row. all ≡ rows ++ row ∷ [])) }
{
    with_more(rows, row)
}

/// INSERT of these rows.
pub fn insert_of(table: Name, rows: Result<List<List<Expr>>, Refusal>) -> Result<Resolved, Refusal>
    ensures made { IfOk result (λ statement. IsOkAnd rows (λ rows.
        statement ≡ made.Insert table.text rows)) }
    ensures refused { IfErr result (λ refusal. IsErrAnd rows (λ first. refusal ≡ first)) }
{
    match rows {
        Ok(rows) => Ok(Resolved::Insert {
            name: text_of(table),
            rows,
        }),
        Err(refusal) => Err(refusal),
    }
}

/// IMPACT of the rows that meet the condition on a whole query.
pub fn impact_of(
    table: Name,
    condition: Option<Expr>,
    whole: Result<Whole, Refusal>,
) -> Result<Resolved, Refusal>
    ensures made { IfOk result (λ statement. IsOkAnd whole (λ whole.
        statement ≡ made.Impact table.text condition whole.answer)) }
    ensures refused { IfErr result (λ refusal. IsErrAnd whole (λ first. refusal ≡ first)) }
{
    match whole {
        Ok(whole) => Ok(Resolved::Impact {
            name: text_of(table),
            condition,
            answer: answer_of(whole),
        }),
        Err(refusal) => Err(refusal),
    }
}

/// DELETE of the rows that meet the condition.
pub fn delete_of(table: Name, condition: Result<Option<Expr>, Refusal>) -> Result<Resolved, Refusal>
    ensures made { IfOk result (λ statement. IsOkAnd condition (λ condition.
        statement ≡ made.Delete table.text condition)) }
    ensures refused { IfErr result (λ refusal. IsErrAnd condition (λ first. refusal ≡ first)) }
{
    match condition {
        Ok(condition) => Ok(Resolved::Delete {
            name: text_of(table),
            condition,
        }),
        Err(refusal) => Err(refusal),
    }
}
