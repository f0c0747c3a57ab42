ghost use Rattle.std.specs.Prelude.{◌≡◌, [], false, cond};
ghost use Rattle.perm_io.specs.Counts.{raised};

use crate::watched::kept::{NAME, front_of};
use crate::{BeginError, Failed, Files};
use arrayvec::ArrayVec;
use perm_values::Chars;
use std::alloc::Global;

/// Files that hand on to others, and keep the name of the one begun last, its first 4,096 bytes, and how many bytes of the first
/// one were read.
#[derive(Drop)]
pub struct WatchedFiles<F: Files + Drop> {
    files: F,
    name: ArrayVec<u8, NAME>,
    begun: bool,
    further: bool,
    first: u64,
}

impl<F: Files + Drop> WatchedFiles<F> {
    /// No file is begun yet.
    pub fn new(files: F) -> WatchedFiles<F>
        ensures files { result.files ≡ files }
        ensures name { result.name.items ≡ [] }
        ensures begun { result.begun ≡ false }
        ensures further { result.further ≡ false }
        ensures first { result.first ≡ 0 }
    {
        WatchedFiles {
            files,
            name: ArrayVec::new(),
            begun: false,
            further: false,
            first: 0,
        }
    }

    /// The name of the file that was begun last.
    pub fn name(&self) -> &[u8]
        ensures { result.now ≡ self.now.name.items }
    {
        self.name.as_slice()
    }

    /// How many bytes of the file that was begun first were read. It stays at its last value.
    pub fn first(&self) -> u64
        ensures { result ≡ self.now.first }
    {
        self.first
    }
}

impl<F: Files + Drop> Files for WatchedFiles<F> {
    ghost use Rattle.std.specs.Prelude.{◌≡◌, ◌<◌, ◌≤◌, ◌||◌, true, cond, IfOk, OnErr, IfSome, IsSomeAnd, Some, None, take, length, is_err};
    ghost use Rattle.std.specs.Bool.{OnTrue, OnFalse};
    ghost use Rattle.std.specs.Io.KnownBytes.{prepend_known, IsAtEnd};
    ghost use Rattle.perm_io.specs.Answers.{is_absent, is_found, has_failed};
    ghost use Rattle.perm_io.specs.Counts.{next_count, raised, CountsFault};
    ghost use Rattle.perm_io.specs.Named.{file_named};
    ghost use Rattle.perm_io.specs.declared.watched.kept.TheConstants.{NAME};

    ghost told = { λ f. F.told f.files };

    fn begin(&mut self, alloc: Global, name: &Chars) -> Result<bool, BeginError>
        ensures held { (F.told self.new.files).held ≡ (F.told self.old.files).held }
        ensures begun { (F.told self.new.files).begun ≡ next_count (F.told self.old.files).begun }
        ensures taken { (F.told self.new.files).taken ≡ 0 }
        ensures absent { (F.told self.new.files).absent ≡ is_absent result }
        ensures faults { CountsFault (F.told self.old.files).faults (F.told self.new.files).faults
            (has_failed result) }
        ensures found { OnTrue (is_found result) (IfSome (F.told self.old.files).held (λ files.
            IsSomeAnd (file_named files name.now) (λ bytes. (F.told self.new.files).rest ≡ Some bytes))) }
        ensures missing { OnTrue (is_absent result) (IfSome (F.told self.old.files).held (λ files.
            file_named files name.now ≡ None)) }
        ensures nothing { OnFalse (is_found result) (IsAtEnd (F.told self.new.files).rest) }
        ensures name { self.new.name.items ≡ take NAME name.now }
        ensures first { self.new.first ≡ self.old.first }
        ensures further { self.new.further ≡ (self.old.further || self.old.begun) }
        ensures is_begun { self.new.begun ≡ true }
    {
        self.name = front_of(name.bytes());
        self.further = self.further || self.begun;
        self.begun = true;
        self.files.begin(alloc, name)
    }

    fn read(&mut self, into: &mut [u8]) -> Result<usize, Failed>
        ensures held { (F.told self.new.files).held ≡ (F.told self.old.files).held }
        ensures begun { (F.told self.new.files).begun ≡ (F.told self.old.files).begun }
        ensures absent { (F.told self.new.files).absent ≡ (F.told self.old.files).absent }
        ensures faults { CountsFault (F.told self.old.files).faults (F.told self.new.files).faults
            (is_err result) }
        ensures bound { IfOk result (λ count. count ≤ length into.new) }
        ensures moved { IfOk result (λ count.
            (F.told self.old.files).rest ≡ prepend_known (take count into.new) (F.told self.new.files).rest) }
        ensures end { IfOk result (λ count. count ≡ 0 → 0 < length into.new →
            IsAtEnd (F.told self.old.files).rest) }
        ensures taken { IfOk result (λ count.
            (F.told self.new.files).taken ≡ raised (F.told self.old.files).taken count) }
        ensures failed { OnErr result (((F.told self.new.files).rest ≡ (F.told self.old.files).rest)
            × ((F.told self.new.files).taken ≡ (F.told self.old.files).taken)) }
        ensures name { self.new.name.items ≡ self.old.name.items }
        ensures first { IfOk result (λ count.
            self.new.first ≡ cond self.old.further self.old.first (raised self.old.first count)) }
        ensures first_failed { OnErr result (self.new.first ≡ self.old.first) }
    {
        match self.files.read(into) {
            Ok(count) => {
                self.first = counted(self.first, self.further, count);
                Ok(count)
            }
            Err(Failed) => Err(Failed),
        }
    }
}

/// What was read of the first file, after so many bytes more of it or of a further one.
fn counted(first: u64, further: bool, count: usize) -> u64
    ensures { result ≡ cond further first (raised first count) }
{
    if further {
        first
    } else {
        first.saturating_add(count as u64)
    }
}
