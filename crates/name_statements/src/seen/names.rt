//! Names of tables, views and columns.
ghost use Rattle.std.specs.Prelude.{◌≡◌, [], IfOk};
ghost use Rattle.name_meaning.specs.Statements as words;
ghost use Rattle.name_seen_parts.specs.Seen.{first_or};
ghost use Rattle.perm_catalog.specs.Changes.{is_free};
ghost use Rattle.name_statements.specs.Earlier.{column_break, is_defined};

use name_meaning::{Break, Rule};
use perm_catalog::{Catalog, Names};
use perm_values::{Chars, NoMemory};
use sql_tree::{ColumnDef, Name};
use std::alloc::Global;

/// The most columns that a table may have.
const MOST_COLUMNS: usize = 256;

/// That a table or a view has this name.
pub fn taken(catalog: &Catalog, name: &Name) -> Result<(), Break>
    ensures { result ≡ first_or (words.taken catalog.now name.now) tt }
{
    if !is_free(catalog, &name.text) {
        return Err(Break {
            rule: Rule::TakenName,
            at: name.at,
        });
    }
    Ok(())
}

fn is_free(catalog: &Catalog, name: &Chars) -> bool
    ensures { result ≡ is_free catalog.now name.now }
{
    catalog.table(name).is_none() && catalog.view(name).is_none()
}

/// That no table has this name.
pub fn unknown_table(catalog: &Catalog, name: &Name) -> Result<(), Break>
    ensures { result ≡ first_or (words.unknown_table catalog.now name.now) tt }
{
    match catalog.table(&name.text) {
        Some(_) => Ok(()),
        None => Err(Break {
            rule: Rule::UnknownRelation,
            at: name.at,
        }),
    }
}

/// That no view has this name.
pub fn unknown_view(catalog: &Catalog, name: &Name) -> Result<(), Break>
    ensures { result ≡ first_or (words.unknown_view catalog.now name.now) tt }
{
    match catalog.view(&name.text) {
        Some(_) => Ok(()),
        None => Err(Break {
            rule: Rule::UnknownRelation,
            at: name.at,
        }),
    }
}

/// That a view uses what has this name.
pub fn used(catalog: &Catalog, name: &Name) -> Result<(), Break>
    ensures { result ≡ first_or (words.used catalog.now name.now) tt }
{
    match catalog.user_of(&name.text) {
        None => Ok(()),
        Some(_) => Err(Break {
            rule: Rule::UsedByView,
            at: name.at,
        }),
    }
}

/// That a table of this name would have more than 256 columns.
pub fn table_limit(name: &Name, width: usize) -> Result<(), Break>
    ensures { result ≡ first_or (words.table_limit name.now width) tt }
{
    if width > MOST_COLUMNS {
        return Err(Break {
            rule: Rule::TooManyColumns,
            at: name.at,
        });
    }
    Ok(())
}

/// The first column that has the name of an earlier one. Where there is no memory for a set of the names, each is compared with
/// all before it.
pub fn repeated_columns(alloc: Global, columns: &[ColumnDef]) -> Result<(), Break>
    ensures { result ≡ first_or (words.repeated_columns [] columns.now) tt }
{
    match first_repeated(alloc, columns) {
        Ok(found) => found,
        Err(_) => repeated_among(columns),
    }
}

/// The same by a set of the names so far.
fn first_repeated(alloc: Global, columns: &[ColumnDef]) -> Result<Result<(), Break>, NoMemory>
    ensures { IfOk result (λ found. found ≡ first_or (words.repeated_columns [] columns.now) tt) }
{
    let mut names = Names::none(alloc);
    for column in columns {
        let is_new = names.add(alloc, &column.name.text)?;
        if !is_new {
            return Ok(Err(Break {
                rule: Rule::RepeatedColumn,
                at: column.name.at,
            }));
        }
    }
    Ok(Ok(()))
}

/// The same without memory.
fn repeated_among(columns: &[ColumnDef]) -> Result<(), Break>
    ensures { result ≡ first_or (words.repeated_columns [] columns.now) tt }
{
    for at in 0..columns.len() {
        match repeated_column(&columns[..at], &columns[at]) {
            Ok(()) => {}
            Err(first) => return Err(first),
        }
    }
    Ok(())
}

fn repeated_column(earlier: &[ColumnDef], column: &ColumnDef) -> Result<(), Break>
    ensures { result ≡ first_or (column_break earlier.now column.now) tt }
{
    if is_among(earlier, &column.name.text) {
        return Err(Break {
            rule: Rule::RepeatedColumn,
            at: column.name.at,
        });
    }
    Ok(())
}

fn is_among(columns: &[ColumnDef], name: &Chars) -> bool
    ensures { result ≡ is_defined columns.now name.now }
{
    columns.iter().any(|column| *name == column.name.text)
}
