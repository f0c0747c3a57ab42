ghost use Rattle.std.specs.Prelude.{◌≡◌, ◌↔◌, ◌<◌, ◌≤◌, [], ◌++◌, take, length, Some, false, Contains, IsTrue, IfOk, OnErr, IfErr, is_err};
ghost use Rattle.perm_io.specs.Answers.{is_absent, has_failed};
ghost use Rattle.perm_io.specs.Counts.{next_count, raised, CountsFault};
ghost use Rattle.perm_io.specs.Named.{IsBegun};

use crate::failures::Failures;
use crate::shelf::Shelf;
use crate::{BeginError, Failed, Files, NamedFile};
use perm_values::{Chars, List, NoMemory};
use std::alloc::Global;

/// Files in memory. The calls of the listed numbers fail, counted from 1 over `begin` and `read`.
#[derive(Drop)]
pub struct MemoryFiles {
    shelf: Shelf,
    failures: Failures,
}

impl MemoryFiles {
    ghost use Rattle.perm_io.specs.MemoryFiles.{files_of, left_in, faults_of, begun_of, taken_of, is_absent_in, failing_of, calls_of};

    /// These files, none begun. Where a name stands twice, the first one counts. It fails only for want of memory.
    pub fn new(
        alloc: Global,
        files: List<NamedFile>,
        failing: &[u64],
    ) -> Result<MemoryFiles, NoMemory>
        ensures held { IfOk result (λ made. files_of made ≡ files) }
        ensures failing { IfOk result (λ made. failing_of made ≡ failing.now) }
        ensures calls { IfOk result (λ made. calls_of made ≡ 0) }
        ensures rest { IfOk result (λ made. left_in made ≡ []) }
        ensures faults { IfOk result (λ made. faults_of made ≡ 0) }
        ensures begun { IfOk result (λ made. begun_of made ≡ 0) }
        ensures taken { IfOk result (λ made. taken_of made ≡ 0) }
        ensures absent { IfOk result (λ made. is_absent_in made ≡ false) }
    {
        let failures = Failures::new(alloc, failing)?;
        Ok(MemoryFiles {
            shelf: Shelf::new(files),
            failures,
        })
    }
}

impl Files for MemoryFiles {
    ghost use Rattle.perm_io.specs.MemoryFiles.{files_of, left_in, faults_of, begun_of, taken_of, is_absent_in, failing_of, calls_of, told_by};

    ghost told = { told_by };

    fn begin(&mut self, _alloc: Global, name: &Chars) -> Result<bool, BeginError>
        ensures fails { IsTrue (is_err result)
            ↔ Contains (failing_of self.old) (next_count (calls_of self.old)) }
        ensures failed { IfErr result (λ error. error ≡ BeginError.Failed) }
        ensures failing { failing_of self.new ≡ failing_of self.old }
        ensures calls { calls_of self.new ≡ next_count (calls_of self.old) }
        ensures faults { CountsFault (faults_of self.old) (faults_of self.new) (is_err result) }
        ensures never { failing_of self.old ≡ [] → faults_of self.new ≡ faults_of self.old }

        ensures found { IfOk result (λ found. IsBegun (files_of self.old) name.now found (left_in self.new)) }
        ensures nothing { OnErr result (left_in self.new ≡ []) }
        ensures held { files_of self.new ≡ files_of self.old }
        ensures begun { begun_of self.new ≡ next_count (begun_of self.old) }
        ensures taken { taken_of self.new ≡ 0 }
        ensures absent { is_absent_in self.new ≡ is_absent result }
    {
        if self.failures.next_fails() {
            self.shelf.leave();
            return Err(BeginError::Failed);
        }
        Ok(self.shelf.begin(name))
    }

    fn read(&mut self, into: &mut [u8]) -> Result<usize, Failed>
        ensures fails { IsTrue (is_err result)
            ↔ Contains (failing_of self.old) (next_count (calls_of self.old)) }
        ensures failing { failing_of self.new ≡ failing_of self.old }
        ensures calls { calls_of self.new ≡ next_count (calls_of self.old) }
        ensures faults { CountsFault (faults_of self.old) (faults_of self.new) (is_err result) }
        ensures never { failing_of self.old ≡ [] → faults_of self.new ≡ faults_of self.old }

        ensures bound { IfOk result (λ count. count ≤ length into.new) }
        ensures moved { IfOk result (λ count. left_in self.old ≡ take count into.new ++ left_in self.new) }
        ensures end { IfOk result (λ count. count ≡ 0 → 0 < length into.new → left_in self.old ≡ []) }
        ensures taken { IfOk result (λ count. taken_of self.new ≡ raised (taken_of self.old) count) }
        ensures stays { OnErr result ((left_in self.new ≡ left_in self.old)
            × (taken_of self.new ≡ taken_of self.old)) }
        ensures held { files_of self.new ≡ files_of self.old }
        ensures begun { begun_of self.new ≡ begun_of self.old }
        ensures absent { is_absent_in self.new ≡ is_absent_in self.old }
    {
        if self.failures.next_fails() {
            return Err(Failed);
        }
        Ok(self.shelf.read(into))
    }
}
