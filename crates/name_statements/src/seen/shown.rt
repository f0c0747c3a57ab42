//! What a statement asks of the columns of its query.
ghost use Rattle.std.specs.Prelude.{◌≡◌, IfOk};
ghost use Rattle.perm_values.specs.declared.kind.Kind.TheVariants.{Text as Words, Boolean as Truths};
ghost use Rattle.name_meaning.specs.Froms.{names_of, settled_columns};
ghost use Rattle.name_meaning.specs.Meanings.{broken_if, is_same_kind, settled};
ghost use Rattle.name_meaning.specs.Statements.{has_boolean, repeats};
ghost use Rattle.name_seen_parts.specs.Seen.{first_or};
ghost use Rattle.name_seen_parts.specs.Columns.{columns_of};
ghost use Rattle.name_statements.specs.Earlier.{is_shown};

use name_meaning::{Break, Rule};
use name_seen_parts::ShownColumn;
use perm_catalog::Names;
use perm_values::{Kind, NoMemory};
use std::alloc::Global;

/// That two columns of the query at this offset have one name.
pub fn repeats_break(alloc: Global, at: usize, columns: &[ShownColumn]) -> Result<(), Break>
    ensures { result ≡ first_or (broken_if
        (repeats (names_of (settled_columns (columns_of columns.now)))) Rule.RepeatedColumn at) tt }
{
    if do_repeat(alloc, columns) {
        return Err(Break {
            rule: Rule::RepeatedColumn,
            at,
        });
    }
    Ok(())
}

/// Where there is no memory for a set of the names, each is compared with all behind it.
fn do_repeat(alloc: Global, columns: &[ShownColumn]) -> bool
    ensures { result ≡ repeats (names_of (settled_columns (columns_of columns.now))) }
{
    match repeat_in_set(alloc, columns) {
        Ok(found) => found,
        Err(_) => repeat_in_pairs(columns),
    }
}

/// The same by a set of the names so far.
fn repeat_in_set(alloc: Global, columns: &[ShownColumn]) -> Result<bool, NoMemory>
    ensures { IfOk result (λ found. found ≡ repeats (names_of (settled_columns (columns_of columns.now)))) }
{
    let mut names = Names::none(alloc);
    for column in columns {
        let is_new = names.add(alloc, &column.name)?;
        if !is_new {
            return Ok(true);
        }
    }
    Ok(false)
}

/// The same without memory.
fn repeat_in_pairs(columns: &[ShownColumn]) -> bool
    ensures { result ≡ repeats (names_of (settled_columns (columns_of columns.now))) }
{
    for at in 0..columns.len() {
        if is_among(&columns[at + 1..], &columns[at]) {
            return true;
        }
    }
    false
}

fn is_among(columns: &[ShownColumn], column: &ShownColumn) -> bool
    ensures { result ≡ is_shown columns.now column.now.name }
{
    let name = &column.name;
    columns.iter().any(|other| *name == other.name)
}

/// That a column of the query at this offset holds truths.
pub fn boolean_break(at: usize, columns: &[ShownColumn]) -> Result<(), Break>
    ensures { result ≡ first_or
        (broken_if (has_boolean (settled_columns (columns_of columns.now))) Rule.UnfitKind at) tt }
{
    if has_boolean(columns) {
        return Err(Break {
            rule: Rule::UnfitKind,
            at,
        });
    }
    Ok(())
}

fn has_boolean(columns: &[ShownColumn]) -> bool
    ensures { result ≡ has_boolean (settled_columns (columns_of columns.now)) }
{
    for column in columns {
        if is_boolean(column.kind) {
            return true;
        }
    }
    false
}

fn is_boolean(kind: Option<Kind>) -> bool
    ensures { result ≡ is_same_kind (settled kind Words) Truths }
{
    match kind {
        None => false,
        Some(kind) => match kind {
            Kind::Integer => false,
            Kind::Text => false,
            Kind::Boolean => true,
        },
    }
}
