//! Says what an answer means.
ghost use Rattle.std.specs.Prelude.{IfOk};
ghost use Rattle.statement_meaning.specs.explains.Explains.{Explains};
ghost use Rattle.perm_catalog.specs.Sound.{IsSound};
ghost use Rattle.statement_meaning.specs.Ready.{CanExplain};
ghost use Rattle.sql_printer.specs.explained.Explaining.{StandsFor};
ghost use Rattle.sql_printer.specs.explained.Reading.{SaysAs};

use crate::explained::reading::read_again;
use crate::{print, tables_named};
use bag_algebra::Answer;
use named_texts::named_text;
use perm_catalog::Catalog;
use perm_values::{Bytes, Chars, Copyable, NoMemory};
use plain_queries::plain_query;
use query_texts::TableNames;
use statement_meaning::a_text_explains_all_that_means_the_same;
use std::alloc::Global;
use tree_texts::in_lines;

/// Of a plain text that has more bytes, no other is looked for: it is more than people read.
const LONGEST: usize = 65536;

/// No text gives an answer's column a name that has more bytes: PostgreSQL cuts such a one off.
const LONGEST_NAME: usize = 63;

/// No text repeats a table's or a column's name that has more bytes: a number may stand behind it.
const LONGEST_REPEATED: usize = 57;

/// EXPLAIN REWRITE: the text of a query without PROVENANCE that means what the answer means, whatever rows the catalog's tables
/// have. Where the text in which tables and columns have their own names reads back as just that, it is this; else each column is
/// called by a number. It fails only for want of memory.
pub fn explain(alloc: Global, catalog: &Catalog, answer: &Answer) -> Result<Bytes, NoMemory>
    requires { CanExplain catalog.now answer.now }
    ensures { IfOk result (λ text. Explains catalog.now answer.now text) }
{
    a_text_explains_all_that_means_the_same();
    let simplest = plain_answer(alloc, answer)?;
    let text = print(alloc, catalog, &simplest)?;
    let said = readable_text(alloc, catalog, &simplest, text);
    drop(simplest);
    said
}

/// What the answer means as plain SQL, whose columns are called by numbers.
pub(crate) fn plain_text(
    alloc: Global,
    catalog: &Catalog,
    answer: &Answer,
) -> Result<Bytes, NoMemory>
    requires { CanExplain catalog.now answer.now }
    ensures { IfOk result (λ text. Explains catalog.now answer.now text) }
{
    a_text_explains_all_that_means_the_same();
    let simplest = plain_answer(alloc, answer)?;
    print(alloc, catalog, &simplest)
}

/// What is run for the answer: a plain query that stands for its own, with its names and its keys.
fn plain_answer(alloc: Global, answer: &Answer) -> Result<Answer, NoMemory>
    ensures { IfOk result (λ plain. StandsFor answer.now plain) }
{
    let names = answer.names.copy(alloc)?;
    let keys = answer.keys.copy(alloc)?;
    let query = plain_query(alloc, &answer.query)?;
    Ok(Answer { query, names, keys })
}

/// The answer's text with names, where its plain text is the given one; else the given one.
fn readable_text(
    alloc: Global,
    catalog: &Catalog,
    answer: &Answer,
    text: Bytes,
) -> Result<Bytes, NoMemory>
    requires { IsSound catalog.now }
    ensures { IfOk result (λ said. SaysAs catalog.now said text) }
{
    if text.len() > LONGEST {
        return Ok(text);
    }
    let tables = tables_named(alloc, catalog, &answer.query)?;
    match text_with_names(alloc, tables.as_slice(), answer)? {
        Some(named) => either_text(alloc, catalog, tables.as_slice(), text, named),
        None => Ok(text),
    }
}

/// The answer over these tables as people would write it, in lines; `None` where a name may not be repeated.
fn text_with_names(
    alloc: Global,
    tables: &[TableNames],
    answer: &Answer,
) -> Result<Option<Bytes>, NoMemory> {
    if !names_may_repeat(tables, answer.names.as_slice()) {
        return Ok(None);
    }
    let text = named_text(alloc, tables, answer)?;
    Ok(Some(in_lines(alloc, text.as_slice())?))
}

fn are_short(names: &[Chars], longest: usize) -> bool {
    names.iter().all(|name| name.bytes().len() <= longest)
}

/// Whether the names of a table and of its columns are short.
fn has_short_names(table: &TableNames) -> bool {
    table.name.bytes().len() <= LONGEST_REPEATED
        && are_short(table.columns.as_slice(), LONGEST_REPEATED)
}

/// Whether a text may repeat the names of all tables, of their columns and of an answer's.
fn names_may_repeat(tables: &[TableNames], names: &[Chars]) -> bool {
    tables.iter().all(|table| has_short_names(table)) && are_short(names, LONGEST_NAME)
}

/// The text with names, where it names these tables alone and its plain text is the other one; else the other one.
fn either_text(
    alloc: Global,
    catalog: &Catalog,
    tables: &[TableNames],
    text: Bytes,
    named: Bytes,
) -> Result<Bytes, NoMemory>
    requires { IsSound catalog.now }
    ensures { IfOk result (λ said. SaysAs catalog.now said text) }
{
    match read_again(alloc, catalog, tables, named.as_slice())? {
        Some(again) if again.as_slice() == text.as_slice() => Ok(named),
        _ => Ok(text),
    }
}
