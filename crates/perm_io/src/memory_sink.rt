ghost use Rattle.std.specs.Prelude.{◌≡◌, ◌↔◌, ◌⊎◌, ◌+◌, ◌<◌, ◌≤◌, ◌||◌, min, nat_lt, [], ◌++◌, take, length, Some, false, Contains, IsTrue, IfOk, OnOk, OnErr, is_err, vec_len};
ghost use Rattle.std.specs.Vec.{vec_capacity};
ghost use Rattle.perm_io.specs.Counts.{next_count, CountsFault};

use crate::failures::Failures;
use crate::{Failed, Sink};
use perm_values::NoMemory;
use std::alloc::Global;

/// An output into memory, with room for so many bytes. The calls of the listed numbers fail, counted from 1 over `write`
/// and `flush`, and so does a write of some bytes where no room is left.
#[derive(Drop)]
pub struct MemorySink {
    bytes: Vec<u8>,
    room: usize,
    unflushed: bool,
    failures: Failures,
    ghost within: { vec_len bytes ≤ room },
    ghost reserved: { room ≤ vec_capacity bytes },
}

impl MemorySink {
    ghost use Rattle.perm_io.specs.MemorySink.{bytes_in, room_in, is_unflushed, faults_of, failing_of, calls_of};

    /// Nothing is written. It takes the memory for the whole room, and fails only for want of it.
    pub fn new(alloc: Global, room: usize, failing: &[u64]) -> Result<MemorySink, NoMemory>
        ensures written { IfOk result (λ made. bytes_in made ≡ []) }
        ensures faults { IfOk result (λ made. faults_of made ≡ 0) }
        ensures unflushed { IfOk result (λ made. is_unflushed made ≡ false) }
        ensures room { IfOk result (λ made. room_in made ≡ room) }
        ensures failing { IfOk result (λ made. failing_of made ≡ failing.now) }
        ensures calls { IfOk result (λ made. calls_of made ≡ 0) }
    {
        let failures = Failures::new(alloc, failing)?;
        Ok(MemorySink {
            bytes: Vec::with_capacity(alloc, room)?,
            room,
            unflushed: false,
            failures,
        })
    }

    /// The bytes written.
    pub fn written(&self) -> &[u8]
        ensures { result.now ≡ bytes_in self.now }
    {
        self.bytes.as_slice()
    }
}

impl Sink for MemorySink {
    ghost use Rattle.perm_io.specs.MemorySink.{bytes_in, room_in, is_unflushed, faults_of, failing_of, calls_of, told_by};

    ghost told = { told_by };

    fn write(&mut self, from: &[u8]) -> Result<usize, Failed>
        // A call fails where it is listed, and where none of some bytes have room.
        ensures fails { IsTrue (is_err result) ↔
            (Contains (failing_of self.old) (next_count (calls_of self.old))
            ⊎ ((room_in self.old ≡ 0) × (0 < length from.now))) }
        ensures failing { failing_of self.new ≡ failing_of self.old }
        ensures calls { calls_of self.new ≡ next_count (calls_of self.old) }
        ensures faults { CountsFault (faults_of self.old) (faults_of self.new) (is_err result) }
        ensures never { failing_of self.old ≡ [] → length from.now ≤ room_in self.old →
            faults_of self.new ≡ faults_of self.old }

        ensures fits { IfOk result (λ count. count ≡ min (length from.now) (room_in self.old)) }
        ensures taken { IfOk result (λ count. bytes_in self.new ≡ bytes_in self.old ++ take count from.now) }
        ensures room { IfOk result (λ count. room_in self.new + count ≡ room_in self.old) }
        ensures unflushed { IfOk result (λ count.
            is_unflushed self.new ≡ (is_unflushed self.old || nat_lt 0 count)) }
        ensures failed { OnErr result ((bytes_in self.new ≡ bytes_in self.old)
            × (room_in self.new ≡ room_in self.old)
            × (is_unflushed self.new ≡ is_unflushed self.old)) }
    {
        if self.failures.next_fails() {
            return Err(Failed);
        }
        let count = from.len().min(self.room - self.bytes.len());
        if count == 0 && !from.is_empty() {
            self.failures.fail();
            return Err(Failed);
        }
        self.bytes.extend_from_slice(&from[..count]).unwrap();
        self.unflushed = self.unflushed || count > 0;
        Ok(count)
    }

    fn flush(&mut self) -> Result<(), Failed>
        ensures fails { IsTrue (is_err result)
            ↔ Contains (failing_of self.old) (next_count (calls_of self.old)) }
        ensures failing { failing_of self.new ≡ failing_of self.old }
        ensures calls { calls_of self.new ≡ next_count (calls_of self.old) }
        ensures faults { CountsFault (faults_of self.old) (faults_of self.new) (is_err result) }
        ensures never { failing_of self.old ≡ [] → faults_of self.new ≡ faults_of self.old }

        ensures written { bytes_in self.new ≡ bytes_in self.old }
        ensures room { room_in self.new ≡ room_in self.old }
        ensures flushed { OnOk result (is_unflushed self.new ≡ false) }
        ensures failed { OnErr result (is_unflushed self.new ≡ is_unflushed self.old) }
    {
        if self.failures.next_fails() {
            return Err(Failed);
        }
        self.unflushed = false;
        Ok(())
    }
}
