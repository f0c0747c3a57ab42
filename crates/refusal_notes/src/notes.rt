//! The note that tells a person of a cause.
ghost use Rattle.std.specs.Prelude.{◌≡◌, ◌++◌, IfOk, OnOk};
ghost use Rattle.std.specs.Fmt.{decimal};
ghost use Rattle.csv_tables.specs.Lines.{two_digits};
ghost use Rattle.refusal_notes.specs.Excerpts.{excerpt};
ghost use Rattle.refusal_notes.specs.Hints.{integer_hints, place_hint, text_hint, width_hints};
ghost use Rattle.refusal_notes.specs.Notes.{data_note, field_in, note_of, place_in, record_in, told_at};
ghost use Rattle.refusal_notes.specs.Sentences.{sentence};

use crate::cause::Cause;
use crate::excerpt::{add_excerpt, shown_text};
use crate::hints::{add_integer_hints, add_place_hint, add_width_hints};
use crate::places::place_of;
use crate::sentence::sentence;
use csv_tables::DataError;
use itoa::Buffer;
use perm_values::{Bytes, NoMemory};
use std::alloc::Global;

/// The note on a cause, with the name and the bytes of the file that it speaks of, the script or a CSV file, and with the name of the
/// file that was copied last. A number that no cause has gives none. It fails only for want of memory.
pub fn note(
    alloc: Global,
    cause: Cause,
    name: &[u8],
    text: &[u8],
    copied: &[u8],
) -> Result<Bytes, NoMemory>
    ensures { IfOk result (λ note. note ≡ note_of cause name.now text.now copied.now) }
{
    match cause {
        Cause::At { code, at } => script_note(alloc, name, text, copied, code, at),
        Cause::NoScript => told_at(alloc, name, 40),
        Cause::LongScript => told_at(alloc, name, 41),
        Cause::Data(error) => data_note(alloc, name, text, error),
        Cause::Unread => told_at(alloc, name, 50),
    }
}

/// The note on what is wrong with a file's records; want of memory has none.
fn data_note(alloc: Global, name: &[u8], text: &[u8], error: DataError) -> Result<Bytes, NoMemory>
    ensures { IfOk result (λ note. note ≡ data_note name.now text.now error) }
{
    match error {
        DataError::Width { row } => width_note(alloc, name, text, row),
        DataError::NotInteger { row, field } => integer_note(alloc, name, text, row, field),
        DataError::NotText { row, field } => text_note(alloc, name, row, field),
        DataError::NoMemory => Ok(Bytes::new(alloc)),
    }
}

/// The note on a record with another number of fields than is needed.
fn width_note(alloc: Global, name: &[u8], text: &[u8], row: u64) -> Result<Bytes, NoMemory>
    ensures { IfOk result (λ note. note ≡ told_at (record_in name.now row) 42 ++ width_hints text.now row) }
{
    let mut note = told_at(alloc, record_in(alloc, name, row)?.as_slice(), 42)?;
    add_width_hints(alloc, &mut note, text, row)?;
    Ok(note)
}

/// The note on a field that is no integer.
fn integer_note(
    alloc: Global,
    name: &[u8],
    text: &[u8],
    row: u64,
    field: u64,
) -> Result<Bytes, NoMemory>
    ensures { IfOk result (λ note.
        note ≡ told_at (field_in name.now row field) 43 ++ integer_hints text.now row field) }
{
    let mut note = told_at(alloc, field_in(alloc, name, row, field)?.as_slice(), 43)?;
    add_integer_hints(alloc, &mut note, text, row, field)?;
    Ok(note)
}

/// The note on a field that is no text.
fn text_note(alloc: Global, name: &[u8], row: u64, field: u64) -> Result<Bytes, NoMemory>
    ensures { IfOk result (λ note. note ≡ told_at (field_in name.now row field) 44 ++ text_hint) }
{
    let mut note = told_at(alloc, field_in(alloc, name, row, field)?.as_slice(), 44)?;
    note.add(b"hint: save the file as UTF-8\n")?;
    Ok(note)
}

/// The note on what stands at an offset of a script.
fn script_note(
    alloc: Global,
    name: &[u8],
    script: &[u8],
    copied: &[u8],
    code: u8,
    at: usize,
) -> Result<Bytes, NoMemory>
    ensures { IfOk result (λ note.
        note ≡ note_of (Cause.At code at) name.now script.now copied.now) }
{
    if sentence(code).is_empty() {
        return Ok(Bytes::new(alloc));
    }
    let place = place_in(alloc, name, script, at)?;
    let mut note = told_at(alloc, place.as_slice(), code)?;
    add_excerpt(alloc, &mut note, script, at)?;
    add_place_hint(alloc, &mut note, code, script, at, copied)?;
    Ok(note)
}

/// A sentence on a place, and the number of its code.
fn told_at(alloc: Global, place: &[u8], code: u8) -> Result<Bytes, NoMemory>
    ensures { IfOk result (λ note. note ≡ told_at place.now code) }
{
    let mut note = Bytes::new(alloc);
    note.add(shown_text(alloc, place)?.as_slice())?;
    note.add(b": ")?;
    note.add(sentence(code))?;
    note.add(b" (E")?;
    add_two_digits(&mut note, code)?;
    note.add(b")\n")?;
    Ok(note)
}

/// A file, a line of it and a column.
fn place_in(alloc: Global, name: &[u8], script: &[u8], at: usize) -> Result<Bytes, NoMemory>
    ensures { IfOk result (λ place. place ≡ place_in name.now script.now at) }
{
    let found = place_of(script, at);
    let mut place = Bytes::new(alloc);
    place.add(name)?;
    place.add(b":")?;
    add_number(&mut place, found.line as u64)?;
    place.add(b":")?;
    add_number(&mut place, found.column as u64)?;
    Ok(place)
}

/// A record of a file.
fn record_in(alloc: Global, name: &[u8], row: u64) -> Result<Bytes, NoMemory>
    ensures { IfOk result (λ place. place ≡ record_in name.now row) }
{
    let mut place = Bytes::new(alloc);
    place.add(name)?;
    place.add(b": record ")?;
    add_number(&mut place, row)?;
    Ok(place)
}

/// A field of a record of a file.
fn field_in(alloc: Global, name: &[u8], row: u64, field: u64) -> Result<Bytes, NoMemory>
    ensures { IfOk result (λ place. place ≡ field_in name.now row field) }
{
    let mut place = record_in(alloc, name, row)?;
    place.add(b", field ")?;
    add_number(&mut place, field)?;
    Ok(place)
}

/// Adds a number of at least two digits.
fn add_two_digits(text: &mut Bytes, number: u8) -> Result<(), NoMemory>
    ensures { OnOk result (text.new ≡ text.old ++ two_digits number) }
{
    if number < 10 {
        text.add(b"0")?;
        add_number(text, u64::from(number))
    } else {
        add_number(text, u64::from(number))
    }
}

/// Adds a number.
pub(crate) fn add_number(text: &mut Bytes, number: u64) -> Result<(), NoMemory>
    ensures { OnOk result (text.new ≡ text.old ++ decimal number) }
{
    let mut buffer = Buffer::new();
    let digits = buffer.format(number);
    text.add(digits.as_bytes())
}
