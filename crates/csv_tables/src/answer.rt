ghost use Rattle.std.specs.Prelude.{◌≡◌, ◌++◌, IfOk, OnOk};
ghost use Rattle.std.specs.List.{flat_map};
ghost use Rattle.csv_tables.specs.AnswerText.{answer_bytes, count_line, escaped, field_text, header_line, quoted, row_line, separator};

use perm_values::{Bytes, Chars, NoMemory, Rows, Value};
use std::alloc::Global;
use std::marker::Model;

/// The text of an answer as it grows, seen as its bytes.
#[derive(Drop)]
struct Draft {
    alloc: Global,
    bytes: Bytes,
}

impl Model for Draft {
    ghost use Rattle.std.specs.Prelude.{ℕ, List};

    ghost Value = { List ℕ };

    ghost view = { λ d. d.bytes };
}

impl Draft {
    fn push(&mut self, more: &[u8]) -> Result<(), NoMemory>
        ensures { OnOk result (self.new ≡ self.old ++ more.now) }
    {
        self.bytes.add(more)
    }

    fn push_separator(&mut self, place: usize) -> Result<(), NoMemory>
        ensures { OnOk result (self.new ≡ self.old ++ separator place) }
    {
        if place == 0 { Ok(()) } else { self.push(b",") }
    }

    fn push_escaped(&mut self, text: &[u8]) -> Result<(), NoMemory>
        ensures { OnOk result (self.new ≡ self.old ++ flat_map escaped text.now) }
    {
        for byte in text {
            if *byte == b'"' {
                self.push(b"\"\"")?;
            } else {
                self.push(&[*byte])?;
            }
        }
        Ok(())
    }

    fn push_quoted(&mut self, text: &[u8]) -> Result<(), NoMemory>
        ensures { OnOk result (self.new ≡ self.old ++ quoted text.now) }
    {
        self.push(b"\"")?;
        self.push_escaped(text)?;
        self.push(b"\"")
    }

    fn push_field(&mut self, value: &Value) -> Result<(), NoMemory>
        ensures { OnOk result (self.new ≡ self.old ++ field_text value.now) }
    {
        match value {
            Value::Null => Ok(()),
            Value::Integer(number) => self.push(number.to_string(self.alloc)?.as_bytes()),
            Value::Text(text) => self.push_quoted(text.bytes()),
            Value::Boolean(true) => self.push(b"true"),
            Value::Boolean(false) => self.push(b"false"),
        }
    }

    fn push_header(&mut self, names: &[Chars]) -> Result<(), NoMemory>
        ensures { OnOk result (self.new ≡ self.old ++ header_line names.now) }
    {
        for (place, name) in names.iter().enumerate() {
            self.push_separator(place)?;
            self.push_quoted(name.bytes())?;
        }
        self.push(b"\n")
    }

    fn push_row(&mut self, row: &[Value]) -> Result<(), NoMemory>
        ensures { OnOk result (self.new ≡ self.old ++ row_line row.now) }
    {
        for (place, value) in row.iter().enumerate() {
            self.push_separator(place)?;
            self.push_field(value)?;
        }
        self.push(b"\n")
    }

    fn push_rows(&mut self, rows: &Rows) -> Result<(), NoMemory>
        ensures { OnOk result (self.new ≡ self.old ++ flat_map row_line rows.now) }
    {
        for row in rows.as_slice() {
            self.push_row(row.as_slice())?;
        }
        Ok(())
    }

    fn push_count(&mut self, count: usize) -> Result<(), NoMemory>
        ensures { OnOk result (self.new ≡ self.old ++ count_line count) }
    {
        let text = count.to_string(self.alloc)?;
        self.push(b"(")?;
        self.push(text.as_bytes())?;
        self.push(b" rows)\n")
    }
}

/// The text of an answer: a line of the names, a line for each row in the order given, and the number of rows.
///
/// Fields stand between commas as RFC 4180 has it; each line ends with a line feed. Names and texts stand in double
/// quotes, with inner quotes doubled; integers and booleans are bare, and NULL is the empty field. It fails only for
/// want of memory.
pub fn answer_text(alloc: Global, names: &[Chars], rows: &Rows) -> Result<Bytes, NoMemory>
    ensures { IfOk result (λ bytes. bytes ≡ answer_bytes names.now rows.now) }
{
    let mut draft = Draft {
        alloc,
        bytes: Bytes::new(alloc),
    };
    draft.push_header(names)?;
    draft.push_rows(rows)?;
    draft.push_count(rows.len())?;
    let Draft { alloc: _, bytes } = draft;
    Ok(bytes)
}
