//! What stands at a place of a script in small letters.
ghost use Rattle.std.specs.Prelude.{◌≡◌, ◌≤◌, length};
ghost use Rattle.std.specs.List.{prefix_len, suffix_len};
ghost use Rattle.refusal_hints.specs.Words.{ending, is_between, is_no_semicolon, is_of_word, is_other, statement_before, without_ending, word_at, word_before};

use crate::slices::{from, up_to};

/// Whether words are made of this byte.
fn is_of_word(byte: u8) -> bool
    ensures { result ≡ is_of_word byte }
{
    !is_other(byte)
}

/// Whether this byte is of no word.
fn is_other(byte: u8) -> bool
    ensures { result ≡ is_other byte }
{
    !byte.is_ascii_alphanumeric() && byte != b'_'
}

/// How many bytes the word has with which these begin.
pub(crate) fn word_length(bytes: &[u8]) -> usize
    ensures value { result ≡ prefix_len is_of_word bytes.now }
    ensures within { result ≤ length bytes.now }
{
    bytes.iter().take_while(|byte| is_of_word(**byte)).count()
}

/// The word that begins at a place.
pub(crate) fn word_at(script: &[u8], at: usize) -> &[u8]
    ensures { result.now ≡ word_at script.now at }
{
    let rest = from(script, at);
    up_to(rest, word_length(rest))
}

/// The word just before a place.
pub(crate) fn word_before(script: &[u8], at: usize) -> &[u8]
    ensures { result.now ≡ word_before script.now at }
{
    last_word(without_blanks(up_to(script, at)))
}

/// The word with which these bytes end.
fn last_word(bytes: &[u8]) -> &[u8]
    ensures { result.now ≡ ending is_of_word bytes.now }
{
    from(bytes, bytes.len().saturating_sub(word_at_end(bytes)))
}

fn word_at_end(bytes: &[u8]) -> usize
    ensures { result ≡ suffix_len is_of_word bytes.now }
{
    bytes
        .iter()
        .rev()
        .take_while(|byte| is_of_word(**byte))
        .count()
}

/// The bytes without the blanks and opening parentheses at their end.
fn without_blanks(bytes: &[u8]) -> &[u8]
    ensures { result.now ≡ without_ending is_between bytes.now }
{
    up_to(bytes, bytes.len().saturating_sub(blanks_at_end(bytes)))
}

fn blanks_at_end(bytes: &[u8]) -> usize
    ensures { result ≡ suffix_len is_between bytes.now }
{
    bytes
        .iter()
        .rev()
        .take_while(|byte| is_between(**byte))
        .count()
}

fn is_between(byte: u8) -> bool
    ensures { result ≡ is_between byte }
{
    byte == b' ' || byte == b'\t' || byte == b'\n' || byte == b'\r' || byte == b'('
}

/// What stands of a place's statement in front of it.
pub(crate) fn statement_before(script: &[u8], at: usize) -> &[u8]
    ensures { result.now ≡ statement_before script.now at }
{
    last_statement(up_to(script, at))
}

/// What stands behind the last semicolon.
fn last_statement(bytes: &[u8]) -> &[u8]
    ensures { result.now ≡ ending is_no_semicolon bytes.now }
{
    from(bytes, bytes.len().saturating_sub(statement_at_end(bytes)))
}

fn statement_at_end(bytes: &[u8]) -> usize
    ensures { result ≡ suffix_len is_no_semicolon bytes.now }
{
    bytes
        .iter()
        .rev()
        .take_while(|byte| is_no_semicolon(**byte))
        .count()
}

fn is_no_semicolon(byte: u8) -> bool
    ensures { result ≡ is_no_semicolon byte }
{
    byte != b';'
}
