ghost use Rattle.std.specs.Prelude.{◌≡◌, IsSome};
ghost use Rattle.perm_catalog.specs.Changes.{table_named};
ghost use Rattle.statement_meaning.specs.Answers.{IsTurn};
ghost use Rattle.statement_meaning.specs.Turns.{add_rows};

use crate::changes::refusing::refused;
use crate::changes::text::counting;
use perm_catalog::Catalog;
use perm_values::{Bytes, Chars, Rows};
use statement_meaning::StepRefusal;
use std::alloc::Global;

/// Adds rows to a table that is known, for a statement at an offset that counts them behind a word.
pub(crate) fn add_rows(
    alloc: Global,
    catalog: &mut Catalog,
    at: usize,
    word: &[u8],
    name: &Chars,
    rows: Rows,
) -> Result<Bytes, StepRefusal>
    requires { IsSome (table_named catalog.old name.now) }
    ensures { IsTurn (add_rows word.now catalog.old at name.now rows) catalog.old catalog.new result }
{
    let text = counting(alloc, word, rows.len())?;
    match catalog.insert_rows(name, rows) {
        Ok(()) => Ok(text),
        Err(refusal) => Err(refused(refusal, at)),
    }
}
