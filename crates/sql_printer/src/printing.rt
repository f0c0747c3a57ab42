//! Prints the answer of a query as SQL.
ghost use Rattle.std.specs.Prelude.{IfOk, IsTrue};
ghost use Rattle.statement_meaning.specs.explains.Explains.{Explains};
ghost use Rattle.bag_algebra.specs.Rewriting.{is_plain};
ghost use Rattle.bag_algebra.specs.TablesRead.{EachTable};
ghost use Rattle.perm_catalog.specs.Sound.{IsSound, IsSoundAnswer};
ghost use Rattle.perm_catalog.specs.Held.{IsHeldTable};

use crate::answers::{a_printed_answer_is_read_back, a_printed_answer_means_the_answer};
use crate::forms::{printable, see_names, see_tables};
use crate::naming::tables_named;
use bag_algebra::Answer;
use perm_catalog::Catalog;
use perm_values::{Bytes, NoMemory};
use query_texts::query_text;
use std::alloc::Global;
use tree_texts::in_lines;

/// The text of an answer without PROVENANCE, in lines, ended by `;` and a newline: a query over the catalog's
/// tables that means what the answer means, whatever rows they have. It fails only for want of memory.
pub fn print(alloc: Global, catalog: &Catalog, answer: &Answer) -> Result<Bytes, NoMemory>
    requires sound { IsSound catalog.now }
    requires formed { IsSoundAnswer answer.now }
    requires plain { IsTrue (is_plain answer.now.query) }
    requires held { EachTable (IsHeldTable catalog.now) answer.now.query }
    ensures { IfOk result (λ text. Explains catalog.now answer.now text) }
{
    a_printed_answer_is_read_back();
    a_printed_answer_means_the_answer();
    let tables = tables_named(alloc, catalog, &answer.query)?;
    printable(&answer.query)?;
    see_tables(tables.as_slice());
    see_names(answer.names.as_slice());
    let text = query_text(alloc, tables.as_slice(), answer)?;
    in_lines(alloc, text.as_slice())
}
