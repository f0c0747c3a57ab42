ghost use Rattle.std.specs.Prelude.{◌≡◌, ◌<◌, ◌||◌, ℕ, nat_lt, take, length, OnOk, OnErr, is_err};
ghost use Rattle.std.specs.Io.KnownBytes.{append_known};
ghost use Rattle.perm_io.specs.Counts.{CountsFault};

use crate::{Failed, Sink};

/// Not all bytes were written.
#[derive(Clone, Copy, PartialEq, Eq)]
pub struct WriteFault;

impl From<Failed> for WriteFault {
    fn from(_error: Failed) -> WriteFault {
        WriteFault
    }
}

/// Writes all the bytes. `WriteFault` comes only where the count of faults rose or stands at its last value, and then
/// the first of the bytes were written, not all. It takes no memory.
pub fn write_all<K: Sink>(out: &mut K, bytes: &[u8]) -> Result<(), WriteFault>
    ensures whole { OnOk result ((K.told out.new).written ≡ append_known (K.told out.old).written bytes.now) }
    ensures unflushed { OnOk result
        ((K.told out.new).unflushed ≡ ((K.told out.old).unflushed || nat_lt 0 (length bytes.now))) }
    ensures prefix { OnErr result ((count : ℕ) × (count < length bytes.now)
        × ((K.told out.new).written ≡ append_known (K.told out.old).written (take count bytes.now))
        × ((K.told out.new).unflushed ≡ ((K.told out.old).unflushed || nat_lt 0 count))) }
    ensures faults { CountsFault (K.told out.old).faults (K.told out.new).faults (is_err result) }
{
    let mut done = 0;
    while done < bytes.len() {
        done += out.write(&bytes[done..])?;
    }
    Ok(())
}
