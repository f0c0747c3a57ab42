ghost use Rattle.std.specs.Prelude.{◌≡◌, [], Some, false, IsOk, IfOk};
ghost use Rattle.perm_io.specs.Answers.{is_absent};
ghost use Rattle.perm_io.specs.Counts.{next_count};
ghost use Rattle.perm_io.specs.Named.{IsBegun};

use crate::shelf::Shelf;
use crate::{BeginError, Failed, Files, NamedFile};
use perm_values::{Chars, List};
use std::alloc::Global;

/// Files in memory whose calls never fail.
#[derive(Drop)]
pub struct NeverFiles {
    shelf: Shelf,
}

impl NeverFiles {
    ghost use Rattle.perm_io.specs.NeverFiles.{files_of, left_in, begun_of, taken_of, is_absent_in};

    /// These files, none begun. Where a name stands twice, the first one counts. It takes no memory.
    pub fn new(files: List<NamedFile>) -> NeverFiles
        ensures held { files_of result ≡ files }
        ensures rest { left_in result ≡ [] }
        ensures begun { begun_of result ≡ 0 }
        ensures taken { taken_of result ≡ 0 }
        ensures absent { is_absent_in result ≡ false }
    {
        NeverFiles {
            shelf: Shelf::new(files),
        }
    }
}

impl Files for NeverFiles {
    ghost use Rattle.perm_io.specs.NeverFiles.{files_of, left_in, begun_of, taken_of, is_absent_in, told_by};

    ghost told = { told_by };

    fn begin(&mut self, _alloc: Global, name: &Chars) -> Result<bool, BeginError>
        ensures sure { IsOk result }
        ensures found { IfOk result (λ found. IsBegun (files_of self.old) name.now found (left_in self.new)) }
        ensures held { files_of self.new ≡ files_of self.old }
        ensures begun { begun_of self.new ≡ next_count (begun_of self.old) }
        ensures taken { taken_of self.new ≡ 0 }
        ensures absent { is_absent_in self.new ≡ is_absent result }
    {
        Ok(self.shelf.begin(name))
    }

    fn read(&mut self, into: &mut [u8]) -> Result<usize, Failed> {
        Ok(self.shelf.read(into))
    }
}
