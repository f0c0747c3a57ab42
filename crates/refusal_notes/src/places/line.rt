//! The text of the line on which an offset stands.
ghost use Rattle.std.specs.Prelude.{◌≡◌, ◌≤◌, length, take, drop, reverse};
ghost use Rattle.refusal_notes.specs.places.Places.{is_feed, back_to_feed, up_to_feed, line_at};

use crate::places::place::is_feed;

/// The line of the byte at the offset, from 0, without its line feed; the last line, where the script ends before.
pub fn line_at(script: &[u8], offset: usize) -> &[u8]
    ensures { result.now ≡ line_at script.now offset }
{
    if offset < script.len() {
        let start = line_start(&script[..offset]);
        let end = offset + line_length(&script[offset..]);
        &script[start..end]
    } else {
        &script[line_start(script)..]
    }
}

/// Where the last line of the bytes begins.
fn line_start(before: &[u8]) -> usize
    ensures within { result ≤ length before.now }
    ensures line { drop result before.now ≡ reverse (back_to_feed before.now) }
{
    let mut start: usize = 0;
    for at in 0..before.len() {
        if is_feed(before[at]) {
            start = at + 1;
        }
    }
    start
}

/// How many bytes the first line has, without its line feed.
fn line_length(behind: &[u8]) -> usize
    ensures within { result ≤ length behind.now }
    ensures line { take result behind.now ≡ up_to_feed behind.now }
{
    for at in 0..behind.len() {
        if is_feed(behind[at]) {
            return at;
        }
    }
    behind.len()
}
