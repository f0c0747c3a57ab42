ghost use Rattle.std.specs.Prelude.{◌≡◌, false, ◌||◌, nat_lt, take, length, ◌<◌, ◌≤◌, IfOk, OnOk, OnErr, is_err};
ghost use Rattle.std.specs.Io.KnownBytes.{append_known};
ghost use Rattle.perm_io.specs.Counts.{CountsFault};
ghost use Rattle.perm_io.specs.Told.{SinkTold};

use crate::Failed;

/// An output.
pub trait Sink {
    /// The bytes taken, where they are told, the count of faults, which never falls, and whether something is to be flushed.
    ghost told: { Self → SinkTold };

    /// Takes some of the first bytes, and says how many: none only where `from` is empty. `Failed` comes only where the
    /// count of faults rises, or stands at its last value, and then no byte was taken; every other answer leaves the count.
    fn write(&mut self, from: &[u8]) -> Result<usize, Failed>
        ensures bound { IfOk result (λ count. count ≤ length from.now) }
        ensures some { IfOk result (λ count. 0 < length from.now → 0 < count) }
        ensures taken { IfOk result (λ count.
            (told self.new).written ≡ append_known (told self.old).written (take count from.now)) }
        ensures unflushed { IfOk result (λ count.
            (told self.new).unflushed ≡ ((told self.old).unflushed || nat_lt 0 count)) }
        ensures failed { OnErr result (((told self.new).written ≡ (told self.old).written)
            × ((told self.new).unflushed ≡ (told self.old).unflushed)) }
        ensures faults { CountsFault (told self.old).faults (told self.new).faults (is_err result) };

    /// Sends on what was taken. `Failed` comes only where the count of faults rises, or stands at its last value; `Ok`
    /// leaves it.
    fn flush(&mut self) -> Result<(), Failed>
        ensures written { (told self.new).written ≡ (told self.old).written }
        ensures flushed { OnOk result ((told self.new).unflushed ≡ false) }
        ensures failed { OnErr result ((told self.new).unflushed ≡ (told self.old).unflushed) }
        ensures faults { CountsFault (told self.old).faults (told self.new).faults (is_err result) };
}
