ghost use Rattle.std.specs.Prelude.{◌≡◌, ℕ, false};
ghost use Rattle.perm_io.specs.Counts.{next_count, CountsFault};
ghost use Rattle.perm_io.specs.Found.{Read};
ghost use Rattle.statement_meaning.specs.Answers.{Files as Seen, over, can_be, has_failed, IsBacked};
ghost use Rattle.statement_steps.specs.changes.Copied.{GivesRows, IsLoaded};

use csv_tables::{DataError, load};
use perm_io::{Files, ReadError, read_all};
use perm_values::{Chars, Kind, Rows};
use statement_meaning::{FILE_LIMIT, StepRefusal};
use std::alloc::Global;

/// The file of a COPY: its name, the kinds of the columns that it fills, the field that stands for NULL, and whether its
/// first record is none of the rows.
#[derive(Drop)]
pub struct RowFile<'a> {
    pub name: &'a Chars,
    pub kinds: &'a [Kind],
    pub null_field: &'a Chars,
    pub header: bool,
}

/// The rows of a file, for a statement at an offset. `Missing` comes only where the files say that none has the name,
/// `TooLarge` only where more than 2^26 bytes were read, `Unfit` names the first rule that a record breaks, and `ReadFault`
/// comes only where the count of faults rose or stands at its last value. The one file is begun.
pub(crate) fn file_rows<F: Files>(
    alloc: Global,
    files: &mut F,
    at: usize,
    file: &RowFile,
) -> Result<Rows, StepRefusal>
    ensures loaded { IsLoaded (can_be (over (F.told files.old) (F.told files.new)) file.now.name.now)
        at file.now.kinds.now file.now.null_field.now file.now.header result }
    ensures backed { IsBacked result (over (F.told files.old) (F.told files.new)) }
    ensures faults { CountsFault (F.told files.old).faults (F.told files.new).faults (has_failed result) }
    ensures begun { (F.told files.new).begun ≡ next_count (F.told files.old).begun }
    ensures held { (F.told files.new).held ≡ (F.told files.old).held }
{
    match read_all(alloc, files, file.name, FILE_LIMIT) {
        Ok(bytes) => loaded(alloc, bytes.as_slice(), file),
        Err(ReadError::Missing) => Err(StepRefusal::Missing { at }),
        Err(ReadError::TooLarge) => Err(StepRefusal::TooLarge { at }),
        Err(ReadError::Fault) => Err(StepRefusal::ReadFault),
        Err(ReadError::NoMemory) => Err(StepRefusal::NoMemory),
    }
}

/// The rows that the bytes of a file spell.
fn loaded(alloc: Global, bytes: &[u8], file: &RowFile) -> Result<Rows, StepRefusal>
    ensures given { (at : ℕ)
        → GivesRows at file.now.kinds.now file.now.null_field.now file.now.header result (Read bytes.now) }
    ensures backed { (seen : Seen) → IsBacked result seen }
    ensures unfailed { has_failed result ≡ false }
{
    match load(
        alloc,
        bytes,
        file.kinds,
        file.null_field.bytes(),
        file.header,
    ) {
        Ok(rows) => Ok(rows),
        Err(DataError::NoMemory) => Err(StepRefusal::NoMemory),
        Err(rule) => Err(StepRefusal::Unfit(rule)),
    }
}
