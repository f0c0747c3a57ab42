//! The cause that a line names, read back.
ghost use Rattle.std.specs.Prelude.{◌≡◌, ◌≤◌, ◌<◌, ◌^◌, ◌+◌, ◌∷◌, ◌++◌, ℕ, List, length, IfSome, Some, codes};
ghost use Rattle.std.specs.List.{prefix_len};
ghost use Rattle.std.specs.Fmt.{decimal};
ghost use Rattle.csv_tables.specs.Lines.{data_line, error_line};
ghost use Rattle.csv_tables.specs.declared.data_error.DataError.{DataError};
ghost use Rattle.refusal_notes.specs.Causes.{IsCause, IsDataCause, line_of, not_blank};
ghost use Rattle.refusal_notes.specs.declared.cause.Cause.{Cause};
ghost use Rattle.refusal_notes.specs.declared.cause.Cause.TheVariants.{At, Data};

use crate::cause::Cause;
use crate::line::is_line;
use csv_tables::DataError;
use refusal_hints::{from, up_to};

/// The cause whose line this is, without its line feed; `None` where it is no cause's.
pub fn cause_of(line: &[u8]) -> Option<Cause>
    ensures read { (cause : Cause) → IsCause cause → line.now ++ codes "\n" ≡ line_of cause →
        result ≡ Some cause }
    ensures named { IfSome result (λ cause. line.now ++ codes "\n" ≡ line_of cause) }
{
    let cause = guessed(line);
    if is_line(cause, line) {
        Some(cause)
    } else {
        None
    }
}

/// The only cause whose line this may be.
fn guessed(line: &[u8]) -> Cause
    ensures { (cause : Cause) → IsCause cause → line.now ++ codes "\n" ≡ line_of cause → result ≡ cause }
{
    let mark = byte_at(line, 10);
    if mark == b'a' {
        return at_offset(line);
    }
    if mark == b's' {
        return of_script(line);
    }
    if mark == b'r' {
        of_data(line)
    } else {
        Cause::Unread
    }
}

/// A cause at an offset.
fn at_offset(line: &[u8]) -> Cause
    ensures { (code at : ℕ) → code < 100 → at < 2 ^ 64 → line.now ++ codes "\n" ≡ error_line code at
        → result ≡ At code at }
{
    Cause::At {
        code: 10 * digit(byte_at(line, 7)) + digit(byte_at(line, 8)),
        at: number(from(line, 13)) as usize,
    }
}

/// A cause of the script's file.
fn of_script(line: &[u8]) -> Cause
    ensures missing { line.now ≡ codes "error E40 script" → result ≡ Cause.NoScript }
    ensures long { line.now ≡ codes "error E41 script" → result ≡ Cause.LongScript }
{
    if byte_at(line, 8) == b'0' {
        Cause::NoScript
    } else {
        Cause::LongScript
    }
}

/// A rule that a file's records break.
fn of_data(line: &[u8]) -> Cause
    ensures { (error : DataError) → IsDataCause error → line.now ++ codes "\n" ≡ data_line error →
        result ≡ Data error }
{
    let place = from(line, 17);
    let mark = byte_at(line, 8);
    if mark == b'2' {
        return Cause::Data(DataError::Width { row: number(place) });
    }
    let row = first_number(place);
    let field = second_number(place);
    if mark == b'3' {
        Cause::Data(DataError::NotInteger { row, field })
    } else {
        Cause::Data(DataError::NotText { row, field })
    }
}

/// The number of the record in a field's place.
fn first_number(place: &[u8]) -> u64
    ensures { (row field : ℕ) → row < 2 ^ 64 → place.now ≡ decimal row ++ codes " field " ++ decimal field
        → result ≡ row }
{
    number(up_to(place, word_length(place)))
}

/// The number of the field in its place.
fn second_number(place: &[u8]) -> u64
    ensures { (row field : ℕ) → row < 2 ^ 64 → field < 2 ^ 64
        → place.now ≡ decimal row ++ codes " field " ++ decimal field → result ≡ field }
{
    number(from(place, word_length(place) + 7))
}

/// How many bytes stand in front of the first blank.
fn word_length(text: &[u8]) -> usize
    ensures value { result ≡ prefix_len not_blank text.now }
    ensures within { result ≤ length text.now }
{
    text.iter().take_while(|byte| **byte != b' ').count()
}

/// The number that these digits spell; 0 where they spell none.
fn number(digits: &[u8]) -> u64
    ensures { (n : ℕ) → n < 2 ^ 64 → digits.now ≡ decimal n → result ≡ n }
{
    match std::str::from_utf8(digits) {
        Ok(text) => text.parse().unwrap_or(0),
        Err(_) => 0,
    }
}

/// What a digit counts; 0 where it is none.
fn digit(byte: u8) -> u8
    ensures small { result < 10 }
    ensures value { (n : ℕ) → n < 10 → byte ≡ 48 + n → result ≡ n }
{
    if byte < b'0' || byte > b'9' {
        0
    } else {
        byte - b'0'
    }
}

/// The byte at a place; 0 where none is there.
fn byte_at(line: &[u8], at: usize) -> u8
    ensures byte { (before behind : List ℕ) (byte : ℕ) → length before ≡ at →
        line.now ≡ before ++ byte ∷ behind → result ≡ byte }
    ensures none { length line.now ≤ at → result ≡ 0 }
{
    if at < line.len() { line[at] } else { 0 }
}
