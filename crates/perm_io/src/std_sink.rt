ghost use Rattle.std.specs.Prelude.{◌≡◌, false};

use crate::count::next_count;
use crate::{Failed, Sink};
use std::io::Write;

/// An output of the system, as the standard output. What it took is told as far as `out` tells it. A failure to write
/// is a fault, as into a pipe that nobody reads or onto a full disk, and so is a write that takes none of some bytes.
#[derive(Drop)]
pub struct StdSink<W: Write + Drop> {
    out: W,
    faults: u64,
    unflushed: bool,
}

impl<W: Write + Drop> StdSink<W> {
    /// Nothing is taken, and no call failed.
    pub fn new(out: W) -> StdSink<W>
        ensures out { result.out ≡ out }
        ensures faults { (⟦<StdSink<W> as Sink>⟧.told result).faults ≡ 0 }
        ensures unflushed { (⟦<StdSink<W> as Sink>⟧.told result).unflushed ≡ false }
    {
        StdSink {
            out,
            faults: 0,
            unflushed: false,
        }
    }
}

impl<W: Write + Drop> Sink for StdSink<W> {
    ghost use Rattle.std.specs.Prelude.{None, ◌≡◌, ◌||◌, nat_lt, false, length, ◌<◌, ◌≤◌, IfOk, OnOk, OnErr, is_err};
    ghost use Rattle.std.specs.Io.KnownBytes.{Keeps, WriteAppends};
    ghost use Rattle.perm_io.specs.Counts.{CountsFault};

    ghost told = { λ s. record { written = None; faults = s.faults; unflushed = s.unflushed } };

    fn write(&mut self, from: &[u8]) -> Result<usize, Failed>
        ensures bound { IfOk result (λ count. count ≤ length from.now) }
        ensures some { IfOk result (λ count. 0 < length from.now → 0 < count) }
        ensures unflushed { IfOk result (λ count.
            self.new.unflushed ≡ (self.old.unflushed || nat_lt 0 count)) }
        ensures failed { OnErr result (self.new.unflushed ≡ self.old.unflushed) }
        ensures faults { CountsFault self.old.faults self.new.faults (is_err result) }
        ensures bytes { WriteAppends (W.contents self.old.out) (W.contents self.new.out) result from.now }
    {
        match self.out.write(from) {
            Ok(count) if count > 0 || from.is_empty() => {
                self.unflushed = self.unflushed || count > 0;
                Ok(count)
            }
            _ => {
                self.faults = next_count(self.faults);
                Err(Failed)
            }
        }
    }

    fn flush(&mut self) -> Result<(), Failed>
        ensures flushed { OnOk result (self.new.unflushed ≡ false) }
        ensures failed { OnErr result (self.new.unflushed ≡ self.old.unflushed) }
        ensures faults { CountsFault self.old.faults self.new.faults (is_err result) }
        ensures bytes { Keeps (W.contents self.old.out) (W.contents self.new.out) }
    {
        match self.out.flush() {
            Ok(()) => {
                self.unflushed = false;
                Ok(())
            }
            Err(_) => {
                self.faults = next_count(self.faults);
                Err(Failed)
            }
        }
    }
}
