//! The text of a query as it grows.
ghost use Rattle.std.specs.Prelude.{◌≡◌, ◌++◌, [], drop, OnOk};
ghost use Rattle.std.specs.Fmt.{decimal};
ghost use Rattle.sql_lexer.specs.Bytes.{doubled};
ghost use Rattle.tree_texts.specs.expressions.Words.{name_text, number_text, spelled_text, reference_text, unless_none, unsaid_text};

use perm_values::{Bytes, NoMemory};
use std::alloc::Global;
use std::marker::Model;

/// The text of a query as it grows, seen as its bytes.
#[derive(Drop)]
pub struct Draft {
    alloc: Global,
    bytes: Bytes,
}

impl Model for Draft {
    ghost use Rattle.std.specs.Prelude.{ℕ, List};

    ghost Value = { List ℕ };

    ghost view = { λ d. d.bytes };
}

/// What a prefix is at a level.
fn outer_part(prefix: &[u8], level: usize) -> &[u8]
    ensures { result.now ≡ drop level prefix.now }
{
    if level < prefix.len() {
        &prefix[level..]
    } else {
        &[]
    }
}

impl Draft {
    /// The empty text. It takes no memory.
    pub fn new(alloc: Global) -> Draft
        ensures { result ≡ [] }
    {
        Draft {
            alloc,
            bytes: Bytes::new(alloc),
        }
    }

    /// What the text takes its memory from.
    pub fn alloc(&self) -> Global {
        self.alloc
    }

    fn as_slice(&self) -> &[u8]
        ensures { result.now ≡ self.now }
    {
        self.bytes.as_slice()
    }

    /// The bytes of the text. It takes no memory.
    pub fn into_bytes(self) -> Bytes
        ensures { result ≡ self }
    {
        let Draft { alloc: _, bytes } = self;
        bytes
    }

    /// Adds bytes at the end. It fails only for want of memory, as all that adds to the text does.
    pub fn push(&mut self, more: &[u8]) -> Result<(), NoMemory>
        ensures { OnOk result (self.new ≡ self.old ++ more.now) }
    {
        self.bytes.add(more)
    }

    /// A word that stands there unless there is nothing to stand beside it.
    pub fn push_unless_none(&mut self, count: usize, word: &[u8]) -> Result<(), NoMemory>
        ensures { OnOk result (self.new ≡ self.old ++ unless_none count word.now) }
    {
        if count == 0 { Ok(()) } else { self.push(word) }
    }

    /// What no well formed query has.
    pub fn push_unsaid(&mut self) -> Result<(), NoMemory>
        ensures { OnOk result (self.new ≡ self.old ++ unsaid_text) }
    {
        self.push(b"CAST ( NULL AS BOOLEAN ) ")
    }

    fn push_decimal(&mut self, number: u64) -> Result<(), NoMemory>
        ensures { OnOk result (self.new ≡ self.old ++ decimal number) }
    {
        self.push(number.to_string(self.alloc)?.as_bytes())
    }

    /// A number in decimal, and a blank.
    pub fn push_number(&mut self, number: u64) -> Result<(), NoMemory>
        ensures { OnOk result (self.new ≡ self.old ++ number_text number) }
    {
        self.push_decimal(number)?;
        self.push(b" ")
    }

    /// What stands between quotes: each quote in it twice.
    fn push_doubled(&mut self, quote: u8, inside: &[u8]) -> Result<(), NoMemory>
        ensures { OnOk result (self.new ≡ self.old ++ doubled quote inside.now) }
    {
        for byte in inside {
            if *byte == quote {
                self.push(&[quote, quote])?;
            } else {
                self.push(&[*byte])?;
            }
        }
        Ok(())
    }

    /// A name in quotes, and a blank.
    pub fn push_name(&mut self, name: &[u8]) -> Result<(), NoMemory>
        ensures { OnOk result (self.new ≡ self.old ++ name_text name.now) }
    {
        self.push(b"\"")?;
        self.push_doubled(b'"', name)?;
        self.push(b"\" ")
    }

    /// A text in quotes, and a blank.
    pub fn push_spelled(&mut self, spelled: &[u8]) -> Result<(), NoMemory>
        ensures { OnOk result (self.new ≡ self.old ++ spelled_text spelled.now) }
    {
        self.push(b"'")?;
        self.push_doubled(b'\'', spelled)?;
        self.push(b"' ")
    }

    /// The column of a number, of the row at a level.
    pub fn push_column(
        &mut self,
        prefix: &[u8],
        level: usize,
        number: usize,
    ) -> Result<(), NoMemory>
        ensures { OnOk result (self.new ≡ self.old ++ reference_text prefix.now level number) }
    {
        let mut name = Draft::new(self.alloc);
        name.push(outer_part(prefix, level))?;
        name.push_decimal(number as u64)?;
        self.push_name(name.as_slice())
    }
}
