ghost use Rattle.std.specs.Prelude.{◌≡◌, ◌++◌, [], ◌+◌, ◌≤◌, ◌<◌, length};
ghost use Rattle.std.specs.Fmt.{decimal};
ghost use Rattle.csv_tables.specs.declared.errors.line.TheConstants.{LONGEST};

use arrayvec::ArrayVec;
use itoa::Buffer;
use std::marker::Model;

/// The greatest length of a line, in bytes.
pub(crate) const LONGEST: usize = 96;

/// A line of at most 96 bytes, in place, seen as its bytes.
#[derive(Drop)]
pub struct Line {
    bytes: ArrayVec<u8, LONGEST>,
}

impl Model for Line {
    ghost use Rattle.std.specs.Prelude.{ℕ, List};

    ghost Value = { List ℕ };

    ghost view = { λ l. l.bytes.items };
}

impl Line {
    pub(crate) fn new() -> Line
        ensures { result ≡ [] }
    {
        Line {
            bytes: ArrayVec::new(),
        }
    }

    /// The bytes of the line.
    pub fn as_slice(&self) -> &[u8]
        ensures { result.now ≡ self.now }
    {
        self.bytes.as_slice()
    }

    /// Adds bytes for which there is room.
    pub(crate) fn add(&mut self, more: &[u8])
        requires { length self.old + length more.now ≤ 96 }
        ensures { self.new ≡ self.old ++ more.now }
    {
        let _fits = self.bytes.try_extend_from_slice(more);
    }

    /// Adds a number, which has at most 20 digits.
    pub(crate) fn add_number(&mut self, number: u64)
        requires { length self.old + 20 ≤ 96 }
        ensures text { self.new ≡ self.old ++ decimal number }
        ensures bound { length self.new ≤ length self.old + 20 }
    {
        let mut buffer = Buffer::new();
        let digits = buffer.format(number);
        self.add(digits.as_bytes());
    }
}
