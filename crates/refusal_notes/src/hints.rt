//! What a note advises, behind what it tells.
ghost use Rattle.std.specs.Prelude.{◌≡◌, ◌++◌, OnOk, map};
ghost use Rattle.refusal_notes.specs.Excerpts.{shown};
ghost use Rattle.refusal_notes.specs.Hints.{count_hints, count_line, field_hints, file_hint, hint_line, integer_hints, piece_line, place_hint, width_hints};

use crate::excerpt::{behind_piece, shown_text};
use crate::notes::add_number;
use perm_values::{Bytes, NoMemory};
use refusal_hints::{field_advice, field_count, field_of, script_hint, separator_advice};
use std::alloc::Global;

/// Adds a line of advice, where there is some.
fn add_hint(alloc: Global, note: &mut Bytes, advice: &[u8]) -> Result<(), NoMemory>
    ensures { OnOk result (note.new ≡ note.old ++ hint_line advice.now) }
{
    if advice.is_empty() {
        return Ok(());
    }
    note.add(b"hint: ")?;
    note.add(shown_text(alloc, advice)?.as_slice())?;
    note.add(b"\n")
}

/// Adds what is advised at an offset of a script.
pub(crate) fn add_place_hint(
    alloc: Global,
    note: &mut Bytes,
    code: u8,
    script: &[u8],
    at: usize,
    copied: &[u8],
) -> Result<(), NoMemory>
    ensures { OnOk result (note.new ≡ note.old ++ place_hint code script.now at copied.now) }
{
    if code == 40 || code == 41 {
        add_file_hint(alloc, note, copied)
    } else {
        add_hint(
            alloc,
            note,
            script_hint(alloc, code, script, at)?.as_slice(),
        )
    }
}

/// Adds which file is meant, where its name is known.
fn add_file_hint(alloc: Global, note: &mut Bytes, copied: &[u8]) -> Result<(), NoMemory>
    ensures { OnOk result (note.new ≡ note.old ++ file_hint copied.now) }
{
    if copied.is_empty() {
        return Ok(());
    }
    add_between(
        alloc,
        note,
        b"hint: the file is ",
        copied,
        b", as seen from where perm is called\n",
    )
}

/// Adds a text as it is shown, between two others.
fn add_between(
    alloc: Global,
    note: &mut Bytes,
    front: &[u8],
    text: &[u8],
    behind: &[u8],
) -> Result<(), NoMemory>
    ensures { OnOk result (note.new ≡ note.old ++ (front.now ++ map shown text.now ++ behind.now)) }
{
    note.add(front)?;
    note.add(shown_text(alloc, text)?.as_slice())?;
    note.add(behind)
}

/// Adds how many fields a record of a file has, and what it looks like.
pub(crate) fn add_width_hints(
    alloc: Global,
    note: &mut Bytes,
    file: &[u8],
    row: u64,
) -> Result<(), NoMemory>
    ensures { OnOk result (note.new ≡ note.old ++ width_hints file.now row) }
{
    let count = field_count(alloc, file, row)?;
    if count == 0 {
        return Ok(());
    }
    add_count_hints(
        alloc,
        note,
        count as u64,
        field_of(alloc, file, row, 1)?.as_slice(),
    )
}

/// Adds how many fields a record has, and what its first one looks like.
fn add_count_hints(
    alloc: Global,
    note: &mut Bytes,
    count: u64,
    first: &[u8],
) -> Result<(), NoMemory>
    ensures { OnOk result (note.new ≡ note.old ++ count_hints count first.now) }
{
    add_count(note, count)?;
    add_hint(alloc, note, separator_advice(first))
}

/// Adds how many fields a record has.
fn add_count(note: &mut Bytes, count: u64) -> Result<(), NoMemory>
    ensures { OnOk result (note.new ≡ note.old ++ count_line count) }
{
    note.add(b"hint: fields of this record: ")?;
    add_number(note, count)?;
    note.add(b"\n")
}

/// Adds what a field of a file is, and what it looks like, where the file has its record.
pub(crate) fn add_integer_hints(
    alloc: Global,
    note: &mut Bytes,
    file: &[u8],
    row: u64,
    field: u64,
) -> Result<(), NoMemory>
    ensures { OnOk result (note.new ≡ note.old ++ integer_hints file.now row field) }
{
    if field_count(alloc, file, row)? == 0 {
        return Ok(());
    }
    add_field_hints(
        alloc,
        note,
        row,
        field_of(alloc, file, row, field)?.as_slice(),
    )
}

/// Adds what a field is that is no integer, and what it looks like.
fn add_field_hints(alloc: Global, note: &mut Bytes, row: u64, field: &[u8]) -> Result<(), NoMemory>
    ensures { OnOk result (note.new ≡ note.old ++ field_hints row field.now) }
{
    add_piece(alloc, note, field)?;
    add_hint(alloc, note, field_advice(row, field))
}

/// Adds the beginning of a field as it is shown.
fn add_piece(alloc: Global, note: &mut Bytes, field: &[u8]) -> Result<(), NoMemory>
    ensures { OnOk result (note.new ≡ note.old ++ piece_line field.now) }
{
    let piece = behind_piece(alloc, field)?;
    add_between(
        alloc,
        note,
        b"hint: the field is '",
        piece.as_slice(),
        b"'\n",
    )
}
