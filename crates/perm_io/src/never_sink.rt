ghost use Rattle.std.specs.Prelude.{◌≡◌, ◌<◌, ◌||◌, length, nat_lt, false, Ok};
ghost use Rattle.perm_io.specs.Counts.{raised};

use crate::{Failed, Sink};

/// An output that keeps only the number of bytes taken. Its calls never fail.
#[derive(Drop)]
pub struct NeverSink {
    taken: u64,
    unflushed: bool,
}

impl NeverSink {
    ghost use Rattle.perm_io.specs.NeverSink.{taken_by, is_unflushed};

    /// Nothing is taken.
    pub fn new() -> NeverSink
        ensures taken { taken_by result ≡ 0 }
        ensures unflushed { is_unflushed result ≡ false }
    {
        NeverSink {
            taken: 0,
            unflushed: false,
        }
    }

    /// The number of bytes taken. It stays at its last value.
    pub fn taken(&self) -> u64
        ensures { result ≡ taken_by self.now }
    {
        self.taken
    }
}

impl Sink for NeverSink {
    ghost use Rattle.perm_io.specs.NeverSink.{taken_by, is_unflushed, told_by};

    ghost told = { told_by };

    fn write(&mut self, from: &[u8]) -> Result<usize, Failed>
        ensures whole { result ≡ Ok (length from.now) }
        ensures taken { taken_by self.new ≡ raised (taken_by self.old) (length from.now) }
        ensures unflushed { is_unflushed self.new ≡ (is_unflushed self.old || nat_lt 0 (length from.now)) }
    {
        self.taken = self.taken.saturating_add(from.len() as u64);
        self.unflushed = self.unflushed || !from.is_empty();
        Ok(from.len())
    }

    fn flush(&mut self) -> Result<(), Failed>
        ensures flushed { result ≡ Ok tt }
        ensures taken { taken_by self.new ≡ taken_by self.old }
        ensures unflushed { is_unflushed self.new ≡ false }
    {
        self.unflushed = false;
        Ok(())
    }
}
