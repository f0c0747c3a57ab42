//! Files in memory, of which one may be open.
ghost use Rattle.std.specs.Prelude.{◌≡◌, ◌+◌, ◌<◌, ◌≤◌, true, false, not, length, take, drop, [], ◌++◌, None, Some, MatchOption, option_map, ◌^◌};
ghost use Rattle.perm_io.specs.Counts.{next_count, raised};
ghost use Rattle.perm_io.specs.Named.{file_named, bytes_at, IsBegun};

use crate::NamedFile;
use crate::count::next_count;
use perm_values::{Chars, List};

/// Files, the place of the open one and how far it is read. A place past the last means that none is open.
#[derive(Drop)]
pub(crate) struct Shelf {
    files: List<NamedFile>,
    current: usize,
    position: usize,
    begun: u64,
    taken: u64,
    absent: bool,
}

impl Shelf {
    ghost use Rattle.perm_io.specs.Shelves.{left_of};

    /// The files, of which none is open.
    pub(crate) fn new(files: List<NamedFile>) -> Shelf
        ensures files { result.files ≡ files }
        ensures left { left_of result ≡ [] }
        ensures begun { result.begun ≡ 0 }
        ensures taken { result.taken ≡ 0 }
        ensures absent { result.absent ≡ false }
    {
        let current = files.len();
        Shelf {
            files,
            current,
            position: 0,
            begun: 0,
            taken: 0,
            absent: false,
        }
    }

    /// Counts a begin, and leaves no file open.
    pub(crate) fn leave(&mut self)
        ensures files { self.new.files ≡ self.old.files }
        ensures left { left_of self.new ≡ [] }
        ensures begun { self.new.begun ≡ next_count self.old.begun }
        ensures taken { self.new.taken ≡ 0 }
        ensures absent { self.new.absent ≡ false }
        ensures position { self.new.position ≡ 0 }
    {
        self.current = self.files.len();
        self.position = 0;
        self.begun = next_count(self.begun);
        self.taken = 0;
        self.absent = false;
    }

    /// Opens the first file of that name, and says whether there is one.
    pub(crate) fn begin(&mut self, name: &Chars) -> bool
        ensures files { self.new.files ≡ self.old.files }
        ensures found { IsBegun self.old.files name.now result (left_of self.new) }
        ensures begun { self.new.begun ≡ next_count self.old.begun }
        ensures taken { self.new.taken ≡ 0 }
        ensures absent { self.new.absent ≡ not result }
    {
        self.leave();
        match place_of(self.files.as_slice(), name) {
            Some(place) => {
                self.current = place;
                true
            }
            None => {
                self.absent = true;
                false
            }
        }
    }

    /// What is left of the open file.
    fn left(&self) -> &[u8]
        ensures value { result.now ≡ left_of self.now }
        ensures bound { self.now.position + length result.now < 2 ^ 64 }
    {
        let position = self.position;
        if self.current >= self.files.len() {
            return &[];
        }
        let bytes = self.files.get(self.current).bytes.as_slice();
        if position < bytes.len() {
            &bytes[position..]
        } else {
            &[]
        }
    }

    /// Moves the first bytes that are left into the front of `into`, as many as it holds, and says how many.
    pub(crate) fn read(&mut self, into: &mut [u8]) -> usize
        ensures files { self.new.files ≡ self.old.files }
        ensures begun { self.new.begun ≡ self.old.begun }
        ensures absent { self.new.absent ≡ self.old.absent }
        ensures bound { result ≤ length into.new }
        ensures moved { left_of self.old ≡ take result into.new ++ left_of self.new }
        ensures end { result ≡ 0 → 0 < length into.new → left_of self.old ≡ [] }
        ensures taken { self.new.taken ≡ raised self.old.taken result }
    {
        let left = self.left();
        let count = left.len().min(into.len());
        into[..count].copy_from_slice(&left[..count]);
        self.position += count;
        self.taken = self.taken.saturating_add(count as u64);
        count
    }
}

/// The place of the first file of that name.
fn place_of(files: &[NamedFile], name: &Chars) -> Option<usize>
    ensures { file_named files.now name.now ≡ option_map (bytes_at files.now) result }
{
    for (place, file) in files.iter().enumerate() {
        if file.name == *name {
            return Some(place);
        }
    }
    None
}
