ghost use Rattle.std.specs.Prelude.{◌≡◌, ◌≢◌, ◌↔◌, ◌+◌, ◌<◌, ◌≤◌, length, IsTrue, Some, None, IfOk, IfSome, IsSomeAnd, IsErrOf};
ghost use Rattle.perm_io.specs.Answers.{cause_of, is_fault};
ghost use Rattle.perm_io.specs.Counts.{next_count, CountsFault};
ghost use Rattle.perm_io.specs.Named.{file_named};

use crate::{BeginError, Failed, Files};
use perm_values::{Bytes, Chars, NoMemory};
use std::alloc::Global;

/// Why a file wasn't read whole: there is none of the name, it has more bytes than may be, a call on it failed, or memory
/// is wanting.
#[derive(Clone, Copy, PartialEq, Eq)]
pub enum ReadError {
    Missing,
    TooLarge,
    Fault,
    NoMemory,
}

impl From<BeginError> for ReadError {
    ghost from_gives = { λ error made. made ≡ cause_of error };

    fn from(error: BeginError) -> ReadError {
        match error {
            BeginError::Failed => ReadError::Fault,
            BeginError::NoMemory => ReadError::NoMemory,
        }
    }
}

impl From<NoMemory> for ReadError {
    ghost use Rattle.std.specs.Prelude.{◌≡◌};
    ghost use Rattle.perm_io.specs.declared.reading.ReadError.TheVariants.{NoMemory as memory};

    ghost from_gives = { λ _ made. made ≡ memory };

    fn from(_error: NoMemory) -> ReadError {
        ReadError::NoMemory
    }
}

/// The bytes of a whole file of at most `limit` bytes. `Missing` comes exactly where the files say that none has the
/// name, `TooLarge` exactly where more than `limit` bytes were read, and `Fault` only where the count of faults rose or
/// stands at its last value. It reads no more than `limit + 1` bytes.
pub fn read_all<F: Files>(
    alloc: Global,
    files: &mut F,
    name: &Chars,
    limit: usize,
) -> Result<Bytes, ReadError>
    ensures begun { (F.told files.new).begun ≡ next_count (F.told files.old).begun }
    ensures held { (F.told files.new).held ≡ (F.told files.old).held }
    ensures faults { CountsFault (F.told files.old).faults (F.told files.new).faults (is_fault result) }

    ensures whole { IfOk result (λ bytes.
        IfSome (F.told files.old).held (λ held. file_named held name.now ≡ Some bytes)) }
    ensures within { IfOk result (λ bytes. length bytes ≤ limit) }
    ensures counted { IfOk result (λ bytes. (F.told files.new).taken ≡ length bytes) }

    ensures missing { IsErrOf result ReadError.Missing ↔ IsTrue (F.told files.new).absent }
    ensures lacking { IsErrOf result ReadError.Missing → IfSome (F.told files.old).held (λ held.
        file_named held name.now ≡ None) }

    ensures too_large { IsErrOf result ReadError.TooLarge ↔ (limit < (F.told files.new).taken) }
    ensures longer { IsErrOf result ReadError.TooLarge → IfSome (F.told files.old).held (λ held.
        IsSomeAnd (file_named held name.now) (λ bytes. limit < length bytes)) }
    ensures no_more { (F.told files.new).taken ≤ limit + 1 }
{
    if !files.begin(alloc, name)? {
        return Err(ReadError::Missing);
    }
    read_rest(alloc, files, limit)
}

/// How many bytes are asked for at a time.
const PIECE: usize = 4096;

/// The bytes that are left of the file begun, if they are at most `limit`.
fn read_rest<F: Files>(alloc: Global, files: &mut F, limit: usize) -> Result<Bytes, ReadError>
    requires { (F.told files.old).taken ≡ 0 }

    ensures begun { (F.told files.new).begun ≡ (F.told files.old).begun }
    ensures held { (F.told files.new).held ≡ (F.told files.old).held }
    ensures absent { (F.told files.new).absent ≡ (F.told files.old).absent }
    ensures faults { CountsFault (F.told files.old).faults (F.told files.new).faults (is_fault result) }

    ensures whole { IfOk result (λ bytes. IfSome (F.told files.old).rest (λ left. left ≡ bytes)) }
    ensures within { IfOk result (λ bytes. length bytes ≤ limit) }
    ensures counted { IfOk result (λ bytes. (F.told files.new).taken ≡ length bytes) }

    ensures not_missing { result ≢ Err ReadError.Missing }
    ensures too_large { IsErrOf result ReadError.TooLarge ↔ (limit < (F.told files.new).taken) }
    ensures longer { IsErrOf result ReadError.TooLarge → IfSome (F.told files.old).rest (λ left.
        limit < length left) }
    ensures no_more { (F.told files.new).taken ≤ limit + 1 }
{
    let mut piece = [0; PIECE];
    let mut bytes = Bytes::new(alloc);
    loop {
        let room = limit - bytes.len();
        match files.read(&mut piece[..room.min(PIECE - 1) + 1]) {
            Ok(0) => return Ok(bytes),
            Ok(count) if count > room => return Err(ReadError::TooLarge),
            Ok(count) => bytes.add(&piece[..count])?,
            Err(Failed) => return Err(ReadError::Fault),
        }
    }
}
