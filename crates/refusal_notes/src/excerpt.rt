//! A piece of the line of an offset, and a mark under its column.
ghost use Rattle.std.specs.Prelude.{◌≡◌, ◌≤◌, ◌+◌, ◌++◌, IfOk, OnOk, length, take, drop, reverse, map, filter};
ghost use Rattle.refusal_notes.specs.places.Places.{back_to_feed, begins_character};
ghost use Rattle.refusal_notes.specs.Excerpts.{behind_at, behind_piece, blank, continued, excerpt, front_at, front_piece, shown};

use crate::places::{begins_character, line_at};
use perm_values::{Bytes, NoMemory};
use refusal_hints::from;
use std::alloc::Global;

/// How many bytes of the line are shown to each side of the place, at about.
const SIDE: usize = 80;

/// Adds a piece of the line of the offset, from 0, and a mark under its column.
pub(crate) fn add_excerpt(
    alloc: Global,
    note: &mut Bytes,
    script: &[u8],
    at: usize,
) -> Result<(), NoMemory>
    ensures { OnOk result (note.new ≡ note.old ++ excerpt script.now at) }
{
    let front = front_piece(alloc, front_at(script, at))?;
    let behind = behind_piece(alloc, behind_at(script, at))?;
    let blanks = blanks_under(alloc, front.as_slice())?;
    note.add(shown_text(alloc, front.as_slice())?.as_slice())?;
    note.add(shown_text(alloc, behind.as_slice())?.as_slice())?;
    note.add(b"\n")?;
    note.add(blanks.as_slice())?;
    note.add(b"^\n")
}

/// Of the offset's line what stands in front of it.
fn front_at(script: &[u8], at: usize) -> &[u8]
    ensures { result.now ≡ front_at script.now at }
{
    if at < script.len() {
        last_line(&script[..at])
    } else {
        last_line(script)
    }
}

/// What stands behind the last line feed.
#[tactic(auto, using(crate::proofs::Pieces::last_line_is))]
fn last_line(before: &[u8]) -> &[u8]
    ensures { result.now ≡ reverse (back_to_feed before.now) }
{
    line_at(before, before.len())
}

/// Of the offset's line the rest.
fn behind_at(script: &[u8], at: usize) -> &[u8]
    ensures { result.now ≡ behind_at script.now at }
{
    if at < script.len() {
        line_at(&script[at..], 0)
    } else {
        &[]
    }
}

/// The end of what stands in front, as it is shown.
fn front_piece(alloc: Global, front: &[u8]) -> Result<Bytes, NoMemory>
    ensures { IfOk result (λ piece. piece ≡ front_piece front.now) }
{
    let mut piece = Bytes::new(alloc);
    if front.len() <= SIDE {
        piece.add(front)?;
    } else {
        let end = &front[front.len() - SIDE..];
        piece.add(b"..")?;
        piece.add(&end[continued(end)..])?;
    }
    Ok(piece)
}

/// The beginning of the rest, as it is shown.
pub(crate) fn behind_piece(alloc: Global, behind: &[u8]) -> Result<Bytes, NoMemory>
    ensures { IfOk result (λ piece. piece ≡ behind_piece behind.now) }
{
    let mut piece = Bytes::new(alloc);
    let end = end_of_piece(behind);
    if behind.len() <= end {
        piece.add(behind)?;
    } else {
        piece.add(&behind[..end])?;
        piece.add(b"..")?;
    }
    Ok(piece)
}

/// Where a character ends behind the bytes that are shown of the rest, or where these end.
fn end_of_piece(behind: &[u8]) -> usize
    ensures { result ≡ 80 + continued (drop 80 behind.now) }
{
    SIDE + continued(from(behind, SIDE))
}

/// How many of the first three bytes go on with a character that begins before them.
#[tactic(auto, using(crate::proofs::Pieces::continued_within, crate::proofs::Pieces::continued_few))]
fn continued(bytes: &[u8]) -> usize
    ensures value { result ≡ continued bytes.now }
    ensures within { result ≤ length bytes.now }
    ensures few { result ≤ 3 }
{
    first_three(bytes)
        .iter()
        .take_while(|byte| !begins_character(**byte))
        .count()
}

/// The first three bytes, or all.
fn first_three(bytes: &[u8]) -> &[u8]
    ensures value { result.now ≡ take 3 bytes.now }
    ensures few { length result.now ≤ 3 }
    ensures within { length result.now ≤ length bytes.now }
{
    if bytes.len() <= 3 { bytes } else { &bytes[..3] }
}

/// Bytes as they are shown.
pub(crate) fn shown_text(alloc: Global, text: &[u8]) -> Result<Vec<u8>, NoMemory>
    ensures { IfOk result (λ made. made.items ≡ map shown text.now) }
{
    Ok(text.iter().map(|byte| shown(*byte)).collect(alloc)?)
}

/// What stands under these bytes in front of a mark.
fn blanks_under(alloc: Global, front: &[u8]) -> Result<Vec<u8>, NoMemory>
    ensures { IfOk result (λ made. made.items ≡ map blank (filter begins_character front.now)) }
{
    let blanks = front
        .iter()
        .copied()
        .filter(|byte| begins_character(*byte))
        .map(|byte| blank(byte))
        .collect(alloc)?;
    Ok(blanks)
}

fn shown(byte: u8) -> u8
    ensures { result ≡ shown byte }
{
    if byte < 32 && byte != b'\t' || byte == 127 {
        b' '
    } else {
        byte
    }
}

fn blank(byte: u8) -> u8
    ensures { result ≡ blank byte }
{
    if byte == b'\t' { b'\t' } else { b' ' }
}
