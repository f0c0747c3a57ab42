ghost use Rattle.std.specs.Prelude.{◌≡◌, []};

use crate::watched::kept::{LAST, last_of};
use crate::{Failed, Sink};
use arrayvec::ArrayVec;

/// An output that hands on to another one, and keeps the last 128 of the bytes that this took.
#[derive(Drop)]
pub struct WatchedSink<K: Sink + Drop> {
    out: K,
    kept: ArrayVec<u8, LAST>,
}

impl<K: Sink + Drop> WatchedSink<K> {
    /// Nothing is kept yet.
    pub fn new(out: K) -> WatchedSink<K>
        ensures out { result.out ≡ out }
        ensures kept { result.kept.items ≡ [] }
    {
        WatchedSink {
            out,
            kept: ArrayVec::new(),
        }
    }

    /// The last bytes that were taken.
    pub fn kept(&self) -> &[u8]
        ensures { result.now ≡ self.now.kept.items }
    {
        self.kept.as_slice()
    }
}

impl<K: Sink + Drop> Sink for WatchedSink<K> {
    ghost use Rattle.std.specs.Prelude.{◌≡◌, ◌<◌, ◌≤◌, ◌||◌, ◌++◌, nat_lt, false, length, take, IfOk, OnOk, OnErr, is_err};
    ghost use Rattle.std.specs.Io.KnownBytes.{append_known};
    ghost use Rattle.perm_io.specs.Counts.{CountsFault};
    ghost use Rattle.perm_io.specs.watched.Kept.{last_of};
    ghost use Rattle.perm_io.specs.declared.watched.kept.TheConstants.{LAST};

    ghost told = { λ s. K.told s.out };

    fn write(&mut self, from: &[u8]) -> Result<usize, Failed>
        ensures bound { IfOk result (λ count. count ≤ length from.now) }
        ensures some { IfOk result (λ count. 0 < length from.now → 0 < count) }
        ensures taken { IfOk result (λ count.
            (K.told self.new.out).written
            ≡ append_known (K.told self.old.out).written (take count from.now)) }
        ensures unflushed { IfOk result (λ count.
            (K.told self.new.out).unflushed ≡ ((K.told self.old.out).unflushed || nat_lt 0 count)) }
        ensures failed { OnErr result (((K.told self.new.out).written ≡ (K.told self.old.out).written)
            × ((K.told self.new.out).unflushed ≡ (K.told self.old.out).unflushed)) }
        ensures faults { CountsFault (K.told self.old.out).faults (K.told self.new.out).faults
            (is_err result) }
        ensures kept { IfOk result (λ count.
            self.new.kept.items ≡ last_of LAST (self.old.kept.items ++ take count from.now)) }
        ensures as_before { OnErr result (self.new.kept.items ≡ self.old.kept.items) }
    {
        match self.out.write(from) {
            Ok(count) => {
                self.kept = last_of(self.kept.as_slice(), &from[..count]);
                Ok(count)
            }
            Err(Failed) => Err(Failed),
        }
    }

    fn flush(&mut self) -> Result<(), Failed>
        ensures written { (K.told self.new.out).written ≡ (K.told self.old.out).written }
        ensures flushed { OnOk result ((K.told self.new.out).unflushed ≡ false) }
        ensures failed { OnErr result ((K.told self.new.out).unflushed ≡ (K.told self.old.out).unflushed) }
        ensures faults { CountsFault (K.told self.old.out).faults (K.told self.new.out).faults
            (is_err result) }
        ensures kept { self.new.kept.items ≡ self.old.kept.items }
    {
        self.out.flush()
    }
}
