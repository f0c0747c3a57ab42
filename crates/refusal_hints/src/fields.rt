//! The fields of a record of a CSV file, and what one looks like that is no integer. Records, and the fields of one, count from 1.
ghost use Rattle.std.specs.Prelude.{◌≡◌, IfOk, nat_lt};
ghost use Rattle.std.specs.List.{list_all, list_any, prefix_len, suffix_len};
ghost use Rattle.std.specs.Char.{is_ascii_digit};
ghost use Rattle.csv.specs.Records.{fields_of};
ghost use Rattle.refusal_hints.specs.Fields.{amount_advice, field_advice, field_count, field_of, has_byte, is_amount, is_date, is_mark, is_of_amount, is_of_date, kind_advice, numbered, record_of, row_advice, separator_advice};

use crate::slices::or_else;
use csv::{ByteRecord, ReaderBuilder};
use perm_values::{Bytes, NoMemory};
use std::alloc::Global;

/// How many fields the record of this number has; 0 where the file has no such record. It fails only for want of memory.
pub fn field_count(alloc: Global, file: &[u8], row: u64) -> Result<usize, NoMemory>
    ensures { IfOk result (λ count. count ≡ field_count file.now row) }
{
    Ok(record_of(alloc, file, row)?.len())
}

/// The field of this number in the record of this number; an empty one where there is none. It fails only for want of memory.
pub fn field_of(alloc: Global, file: &[u8], row: u64, field: u64) -> Result<Bytes, NoMemory>
    ensures { IfOk result (λ found. found ≡ field_of file.now row field) }
{
    let fields = record_of(alloc, file, row)?;
    let mut found = Bytes::new(alloc);
    found.add(numbered(&fields, field))?;
    Ok(found)
}

/// The field of this number; an empty one where there is none.
fn numbered(fields: &ByteRecord, field: u64) -> &[u8]
    ensures { result.now ≡ numbered (fields_of fields.now) field }
{
    if field == 0 {
        return &[];
    }
    match fields.get(field as usize - 1) {
        Some(found) => found,
        None => &[],
    }
}

/// The record of this number; one without fields where there is none.
fn record_of(alloc: Global, file: &[u8], row: u64) -> Result<ByteRecord, NoMemory>
    ensures { IfOk result (λ made. fields_of made ≡ record_of file.now row) }
{
    let mut reader = ReaderBuilder::new()
        .has_headers(false)
        .flexible(true)
        .from_reader(alloc, file);
    let mut fields = ByteRecord::new(alloc);
    for _number in 0..row {
        let Ok(found) = reader.read_byte_record(&mut fields) else {
            return Err(NoMemory);
        };
        if !found {
            return Ok(ByteRecord::new(alloc));
        }
    }
    Ok(fields)
}

/// What is advised of a field that is no integer, in the record of this number.
pub fn field_advice(row: u64, field: &[u8]) -> &'static [u8]
    ensures { result.now ≡ field_advice row field.now }
{
    or_else(
        or_else(separator_advice(field), kind_advice(field)),
        row_advice(row),
    )
}

/// What is advised of a field in which another mark than a comma separates.
pub fn separator_advice(field: &[u8]) -> &'static [u8]
    ensures { result.now ≡ separator_advice field.now }
{
    if has_byte(field, b';') {
        b"only a comma separates fields: this file seems to have semicolons"
    } else if has_byte(field, b'\t') {
        b"only a comma separates fields: this file seems to have tabs"
    } else {
        b""
    }
}

fn has_byte(field: &[u8], byte: u8) -> bool
    ensures { result ≡ has_byte field.now byte }
{
    field.iter().any(|other| *other == byte)
}

/// What is advised of a field that looks like a date, or like a number with marks.
fn kind_advice(field: &[u8]) -> &'static [u8]
    ensures { result.now ≡ kind_advice field.now }
{
    if is_date(field) {
        b"there are no dates: keep them in a TEXT column, best as 2024-01-31"
    } else if is_amount(field) {
        amount_advice(field)
    } else {
        b""
    }
}

/// What is advised of a number with marks.
fn amount_advice(field: &[u8]) -> &'static [u8]
    ensures { result.now ≡ amount_advice field.now }
{
    if digits_at_end(field) == 3 {
        b"an integer has no marks between thousands: leave them out"
    } else {
        b"numbers are whole: write 12.50 as 1250, in cents, and leave out marks between thousands"
    }
}

/// Whether a field of the record looks like a date: digits in front, and then digits and marks of a date.
fn is_date(field: &[u8]) -> bool
    ensures { result ≡ is_date field.now }
{
    starts_with_digit(field)
        && is_all_of_date(field)
        && (has_byte(field, b'-') || has_byte(field, b'/'))
}

/// Whether a field looks like a number with marks.
fn is_amount(field: &[u8]) -> bool
    ensures { result ≡ is_amount field.now }
{
    has_digit(field) && is_all_of_amount(field)
}

fn has_digit(field: &[u8]) -> bool
    ensures { result ≡ list_any is_ascii_digit field.now }
{
    field.iter().any(|byte| byte.is_ascii_digit())
}

fn is_all_of_amount(field: &[u8]) -> bool
    ensures { result ≡ list_all is_of_amount field.now }
{
    field.iter().all(|byte| is_of_amount(*byte))
}

fn is_all_of_date(field: &[u8]) -> bool
    ensures { result ≡ list_all is_of_date field.now }
{
    field.iter().all(|byte| is_of_date(*byte))
}

fn starts_with_digit(field: &[u8]) -> bool
    ensures { result ≡ nat_lt 0 (prefix_len is_ascii_digit field.now) }
{
    digits_in_front(field) > 0
}

fn digits_in_front(field: &[u8]) -> usize
    ensures { result ≡ prefix_len is_ascii_digit field.now }
{
    field
        .iter()
        .take_while(|byte| byte.is_ascii_digit())
        .count()
}

fn digits_at_end(field: &[u8]) -> usize
    ensures { result ≡ suffix_len is_ascii_digit field.now }
{
    field
        .iter()
        .rev()
        .take_while(|byte| byte.is_ascii_digit())
        .count()
}

fn is_of_date(byte: u8) -> bool
    ensures { result ≡ is_of_date byte }
{
    byte.is_ascii_digit() || byte == b'-' || byte == b'/'
}

fn is_of_amount(byte: u8) -> bool
    ensures { result ≡ is_of_amount byte }
{
    byte.is_ascii_digit() || is_mark(byte)
}

fn is_mark(byte: u8) -> bool
    ensures { result ≡ is_mark byte }
{
    byte == b'.' || byte == b',' || byte == b'\'' || byte == b' ' || byte == b'-' || byte == b'+'
}

/// What is advised of any other field.
fn row_advice(row: u64) -> &'static [u8]
    ensures { result.now ≡ row_advice row }
{
    if row == 1 {
        b"where the first record names the columns, HEADER behind the name of the file in COPY leaves it out"
    } else {
        b"an integer is digits, maybe with a sign in front, from -9223372036854775808 to 9223372036854775807"
    }
}
