ghost use Rattle.std.specs.Prelude.{◌≡◌, IsSome};
ghost use Rattle.perm_catalog.specs.Changes.{table_named};
ghost use Rattle.perm_io.specs.Counts.{next_count, CountsFault};
ghost use Rattle.statement_meaning.specs.Answers.{over, can_be, has_failed, IsBacked, TakesTurn};
ghost use Rattle.statement_meaning.specs.Asking.{Begins};
ghost use Rattle.statement_meaning.specs.Turns.{copy};

use crate::changes::adding::add_rows;
use crate::changes::loading::{RowFile, file_rows};
use perm_catalog::Catalog;
use perm_io::Files;
use perm_values::{Bytes, Chars};
use statement_meaning::StepRefusal;
use std::alloc::Global;

/// COPY at an offset, into a table that is known and has columns of the file's kinds: the rows of the file are added.
pub fn copy<F: Files>(
    alloc: Global,
    catalog: &mut Catalog,
    files: &mut F,
    at: usize,
    name: &Chars,
    file: &RowFile,
) -> Result<Bytes, StepRefusal>
    requires { IsSome (table_named catalog.old name.now) }
    ensures turn { TakesTurn (can_be (over (F.told files.old) (F.told files.new)))
        (Begins file.now.name.now
        (copy catalog.old at name.now file.now.kinds.now file.now.null_field.now file.now.header))
        catalog.old catalog.new result }
    ensures backed { IsBacked result (over (F.told files.old) (F.told files.new)) }
    ensures faults { CountsFault (F.told files.old).faults (F.told files.new).faults (has_failed result) }
    ensures begun { (F.told files.new).begun ≡ next_count (F.told files.old).begun }
    ensures held { (F.told files.new).held ≡ (F.told files.old).held }
{
    match file_rows(alloc, files, at, file) {
        Ok(rows) => add_rows(alloc, catalog, at, b"COPY ", name, rows),
        Err(refusal) => Err(refusal),
    }
}
