ghost use Rattle.std.specs.Prelude.{◌≡◌, ◌==◌, ◌<◌, ◌≤◌, length, IfOk};
ghost use Rattle.std.specs.Bool.{OnTrue};
ghost use Rattle.std.specs.List.{prefix_len};
ghost use Rattle.std.specs.Str.{IsUtf8};
ghost use Rattle.sql_lexer.specs.Bytes as spec;

use perm_values::{Chars, NoMemory};
use std::alloc::Global;

/// What a byte may begin.
#[derive(Clone, Copy)]
pub(crate) enum Class {
    Blank,
    Letter,
    Digit,
    Quote,
    Single,
    Other,
}

#[tactic(auto, unfolding(crate::specs::Bytes::class_of))]
pub(crate) fn class_of(byte: u8) -> Class
    ensures { result ≡ spec.class_of byte }
{
    match byte {
        b' ' | b'\t' | b'\n' | b'\r' => Class::Blank,
        b'a'..=b'z' | b'A'..=b'Z' | b'_' => Class::Letter,
        b'0'..=b'9' => Class::Digit,
        b'"' | b'\'' => Class::Quote,
        b'(' | b')' | b',' | b';' | b'.' | b'*' | b'+' | b'-' | b'/' | b'%' | b'=' | b'<' | b'>' =>
            Class::Single,
        _ => Class::Other,
    }
}

/// The number of bytes at the front that a word may hold.
pub(crate) fn word_len(text: &[u8]) -> usize
    ensures value { result ≡ prefix_len spec.is_word text.now }
    ensures within { result ≤ length text.now }
{
    for (len, byte) in text.iter().enumerate() {
        if !matches!(class_of(*byte), Class::Letter | Class::Digit) {
            return len;
        }
    }
    text.len()
}

/// The number of digits at the front.
pub(crate) fn digits_len(text: &[u8]) -> usize
    ensures value { result ≡ prefix_len spec.is_digit text.now }
    ensures within { result ≤ length text.now }
{
    for (len, byte) in text.iter().enumerate() {
        if !matches!(class_of(*byte), Class::Digit) {
            return len;
        }
    }
    text.len()
}

/// The number of bytes before the first line feed.
pub(crate) fn line_len(text: &[u8]) -> usize
    ensures value { result ≡ prefix_len spec.is_comment text.now }
    ensures within { result ≤ length text.now }
{
    for (len, byte) in text.iter().enumerate() {
        if *byte == b'\n' {
            return len;
        }
    }
    text.len()
}

/// Whether a text begins with a byte.
pub(crate) fn begins_with(rest: &[u8], byte: u8) -> bool
    ensures value { result ≡ spec.next_is (λ b. b == byte) rest.now }
    ensures nonempty { OnTrue result (0 < length rest.now) }
{
    match rest {
        [first, ..] => *first == byte,
        [] => false,
    }
}

/// Bytes that are UTF-8, as a text. It takes no memory.
pub(crate) fn as_text(bytes: &[u8]) -> &str
    requires { IsUtf8 bytes.now }
    ensures { result.now ≡ bytes.now }
{
    match std::str::from_utf8(bytes) {
        Ok(text) => text,
        Err(_) => unreachable!(),
    }
}

/// The text of bytes that are UTF-8.
pub(crate) fn text_of(alloc: Global, bytes: &[u8]) -> Result<Chars, NoMemory>
    requires { IsUtf8 bytes.now }
    ensures { IfOk result (λ text. text ≡ bytes.now) }
{
    match Chars::new(alloc, bytes)? {
        Some(text) => Ok(text),
        None => unreachable!(),
    }
}
