ghost use Rattle.std.specs.Prelude.{◌≡◌, ◌≢◌, ◌↔◌, true, false};

use crate::count::next_count;
use crate::{BeginError, Failed, Files};
use perm_values::Chars;
use std::alloc::Global;
use std::io::{ErrorKind, Read};
use std::{fs, rt};

/// The files of the system, by their paths. What is left of one is told as far as the
/// system's files tell it. A file that the system doesn't find is absent, want of memory to open one is `NoMemory`, and
/// every other failure is a fault, as that to read a folder.
#[derive(Drop)]
pub struct DiskFiles<'a, R: rt::Files> {
    rt: &'a R,
    file: Option<R::File>,
    faults: u64,
    begun: u64,
    taken: u64,
    absent: bool,
}

impl<'a, R: rt::Files> DiskFiles<'a, R> {
    /// No file is begun, and no call failed.
    pub fn new(rt: &'a R) -> DiskFiles<'a, R>
        ensures faults { (⟦<DiskFiles<'a, R> as Files>⟧.told result).faults ≡ 0 }
        ensures begun { (⟦<DiskFiles<'a, R> as Files>⟧.told result).begun ≡ 0 }
        ensures taken { (⟦<DiskFiles<'a, R> as Files>⟧.told result).taken ≡ 0 }
        ensures absent { (⟦<DiskFiles<'a, R> as Files>⟧.told result).absent ≡ false }
    {
        DiskFiles {
            rt,
            file: None,
            faults: 0,
            begun: 0,
            taken: 0,
            absent: false,
        }
    }
}

impl<'a, R: rt::Files> Files for DiskFiles<'a, R> {
    ghost use Rattle.std.specs.Prelude.{None, ◌≡◌, take, length, ◌<◌, ◌≤◌, IfOk, OnErr, is_err};
    ghost use Rattle.std.specs.Io.KnownBytes.{prepend_known, IsAtEnd, ReadConsumes};
    ghost use Rattle.perm_io.specs.Counts.{raised, CountsFault};
    ghost use Rattle.perm_io.specs.Told.{left_in, untold};

    ghost told = { λ f. record {
      held = None;
      rest = untold;
      faults = f.faults;
      begun = f.begun;
      taken = f.taken;
      absent = f.absent;
    } };

    fn begin(&mut self, _alloc: Global, name: &Chars) -> Result<bool, BeginError> {
        self.begun = next_count(self.begun);
        self.taken = 0;
        self.file = None;
        let answer = match fs::open(self.rt, name.as_str()) {
            Ok(file) => {
                self.file = Some(file);
                Ok(true)
            }
            Err(error) => unopened(error.kind()),
        };
        self.absent = answer == Ok(false);
        if answer == Err(BeginError::Failed) {
            self.faults = next_count(self.faults);
        }
        answer
    }

    fn read(&mut self, into: &mut [u8]) -> Result<usize, Failed>
        ensures begun { self.new.begun ≡ self.old.begun }
        ensures absent { self.new.absent ≡ self.old.absent }
        ensures faults { CountsFault self.old.faults self.new.faults (is_err result) }
        ensures bound { IfOk result (λ count. count ≤ length into.new) }
        ensures taken { IfOk result (λ count. self.new.taken ≡ raised self.old.taken count) }
        ensures moved { IfOk result (λ count. untold ≡ prepend_known (take count into.new) untold) }
        ensures end { IfOk result (λ count. count ≡ 0 → 0 < length into.new → IsAtEnd untold) }
        ensures failed { OnErr result ((untold ≡ untold) × (self.new.taken ≡ self.old.taken)) }
        ensures bytes { ReadConsumes (left_in ⟦<R::File as Read>⟧.remaining self.old.file)
            (left_in ⟦<R::File as Read>⟧.remaining self.new.file) result into.new }
    {
        let answer = match &mut self.file {
            Some(file) => file.read(into),
            None => Ok(0),
        };
        match answer {
            Ok(count) => {
                self.taken = self.taken.saturating_add(count as u64);
                Ok(count)
            }
            Err(_) => {
                self.faults = next_count(self.faults);
                Err(Failed)
            }
        }
    }
}

/// What a begin answers where the system opened no file: a name that isn't there and want of memory are told apart
/// from every other failure.
fn unopened(kind: ErrorKind) -> Result<bool, BeginError>
    ensures absent { (result ≡ Ok false) ↔ (kind ≡ ErrorKind.NotFound) }
    ensures memory { (result ≡ Err BeginError.NoMemory) ↔ (kind ≡ ErrorKind.OutOfMemory) }
    ensures not_found { result ≢ Ok true }
{
    match kind {
        ErrorKind::NotFound => Ok(false),
        ErrorKind::OutOfMemory => Err(BeginError::NoMemory),
        _ => Err(BeginError::Failed),
    }
}
