ghost use Rattle.std.specs.Prelude.{◌≡◌, take, length, ◌<◌, ◌≤◌, [], Some, None, IfOk, OnErr, IfSome, IsSomeAnd, is_err};
ghost use Rattle.std.specs.Bool.{OnTrue, OnFalse};
ghost use Rattle.std.specs.Io.KnownBytes.{prepend_known, IsAtEnd};
ghost use Rattle.perm_io.specs.Answers.{is_found, is_absent, has_failed};
ghost use Rattle.perm_io.specs.Counts.{raised, next_count, CountsFault};
ghost use Rattle.perm_io.specs.Named.{file_named};
ghost use Rattle.perm_io.specs.Told.{FilesTold};

use crate::Failed;
use perm_values::Chars;
use std::alloc::Global;

/// Why no file was begun: a fault, or want of memory.
#[derive(Clone, Copy, PartialEq, Eq)]
pub enum BeginError {
    Failed,
    NoMemory,
}

/// Files that are read one after another, from the first byte to the last.
pub trait Files {
    /// The files there are and what is left of the one begun, where they are told, and what is counted. No call changes the
    /// files there are, and no count falls.
    ghost told: { Self → FilesTold };

    /// Begins a file, in place of the one before. `Ok(false)` says that there is none of that name. `Failed` comes only
    /// where the count of faults rises, or stands at its last value; every other answer leaves it, `NoMemory` too, which
    /// says that memory is wanting.
    fn begin(&mut self, alloc: Global, name: &Chars) -> Result<bool, BeginError>
        ensures held { (told self.new).held ≡ (told self.old).held }
        ensures begun { (told self.new).begun ≡ next_count (told self.old).begun }
        ensures taken { (told self.new).taken ≡ 0 }
        ensures absent { (told self.new).absent ≡ is_absent result }
        ensures faults { CountsFault (told self.old).faults (told self.new).faults (has_failed result) }

        // Where the files are told, a begin finds the first file of the name, and misses only what isn't there.
        ensures found { OnTrue (is_found result) (IfSome (told self.old).held (λ files.
            IsSomeAnd (file_named files name.now) (λ bytes. (told self.new).rest ≡ Some bytes))) }
        ensures missing { OnTrue (is_absent result) (IfSome (told self.old).held (λ files.
            file_named files name.now ≡ None)) }
        ensures nothing { OnFalse (is_found result) (IsAtEnd (told self.new).rest) };

    /// Reads some of the bytes that are left into the front of `into`, and says how many: none only where `into` is empty
    /// or no byte is left. `Failed` comes only where the count of faults rises, or stands at its last value; every other
    /// answer leaves it.
    fn read(&mut self, into: &mut [u8]) -> Result<usize, Failed>
        ensures held { (told self.new).held ≡ (told self.old).held }
        ensures begun { (told self.new).begun ≡ (told self.old).begun }
        ensures absent { (told self.new).absent ≡ (told self.old).absent }
        ensures faults { CountsFault (told self.old).faults (told self.new).faults (is_err result) }

        ensures bound { IfOk result (λ count. count ≤ length into.new) }
        ensures moved { IfOk result (λ count.
            (told self.old).rest ≡ prepend_known (take count into.new) (told self.new).rest) }
        ensures end { IfOk result (λ count. count ≡ 0 → 0 < length into.new → IsAtEnd (told self.old).rest) }
        ensures taken { IfOk result (λ count. (told self.new).taken ≡ raised (told self.old).taken count) }
        ensures failed { OnErr result (((told self.new).rest ≡ (told self.old).rest)
            × ((told self.new).taken ≡ (told self.old).taken)) };
}
