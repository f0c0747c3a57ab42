//! Calls that are to fail, by their numbers.
ghost use Rattle.std.specs.Prelude.{◌≡◌, ◌↔◌, [], IsTrue, IfOk, Contains};
ghost use Rattle.perm_io.specs.Counts.{next_count, CountsFault, HasRisen};

use crate::count::next_count;
use perm_values::NoMemory;
use std::alloc::Global;

/// The numbers of the calls that are to fail, counted from 1, and how many calls were made and failed.
#[derive(Drop)]
pub(crate) struct Failures {
    listed: Vec<u64>,
    calls: u64,
    faults: u64,
}

impl Failures {
    /// No call was made. It fails only for want of memory.
    pub(crate) fn new(alloc: Global, listed: &[u64]) -> Result<Failures, NoMemory>
        ensures listed { IfOk result (λ made. made.listed.items ≡ listed.now) }
        ensures calls { IfOk result (λ made. made.calls ≡ 0) }
        ensures faults { IfOk result (λ made. made.faults ≡ 0) }
    {
        Ok(Failures {
            listed: Vec::from_slice(alloc, listed)?,
            calls: 0,
            faults: 0,
        })
    }

    /// Counts a call, and says whether it is to fail.
    pub(crate) fn next_fails(&mut self) -> bool
        ensures answer { IsTrue result ↔ Contains self.old.listed.items (next_count self.old.calls) }
        ensures listed { self.new.listed.items ≡ self.old.listed.items }
        ensures calls { self.new.calls ≡ next_count self.old.calls }
        ensures faults { CountsFault self.old.faults self.new.faults result }
    {
        self.calls = next_count(self.calls);
        let fails = self.listed.contains(&self.calls);
        if fails {
            self.fail();
        }
        fails
    }

    /// Counts a failure.
    pub(crate) fn fail(&mut self)
        ensures listed { self.new.listed.items ≡ self.old.listed.items }
        ensures calls { self.new.calls ≡ self.old.calls }
        ensures faults { HasRisen self.old.faults self.new.faults }
    {
        self.faults = next_count(self.faults);
    }
}
