//! The line and the column of an offset.
ghost use Rattle.std.specs.Prelude.{◌≡◌, ◌<◌, ◌^◌, suc, cond};
ghost use Rattle.refusal_notes.specs.places.Places.{is_feed, begins_character, line_behind, column_behind, column_after, line_of, column_of};

/// A place as a person counts: the line from 1, and in it the character from 1.
#[derive(Clone, Copy, PartialEq, Eq)]
pub struct TextPlace {
    pub line: usize,
    pub column: usize,
}

/// The place of the byte at the offset, from 0; the place of the script's end, where the script ends before.
pub fn place_of(script: &[u8], offset: usize) -> TextPlace
    ensures line { result.line ≡ line_of script.now offset }
    ensures column { result.column ≡ column_of script.now offset }
{
    let before = if offset < script.len() {
        &script[..offset]
    } else {
        script
    };
    TextPlace {
        line: line_behind(before),
        column: column_behind(before),
    }
}

/// The line on which the bytes end.
fn line_behind(before: &[u8]) -> usize
    ensures { result ≡ line_behind before.now }
{
    let mut line: usize = 1;
    for byte in before {
        if is_feed(*byte) {
            line += 1;
        }
    }
    line
}

/// The column behind the bytes.
fn column_behind(before: &[u8]) -> usize
    ensures { result ≡ column_behind before.now }
{
    let mut column: usize = 1;
    for byte in before {
        column = column_after(column, *byte);
    }
    column
}

/// The column behind a byte that stands at this one, or inside a character that begins before it.
fn column_after(column: usize, byte: u8) -> usize
    requires { column < 2 ^ 63 }
    ensures { result ≡ column_after column byte }
{
    if is_feed(byte) {
        1
    } else if begins_character(byte) {
        column + 1
    } else {
        column
    }
}

pub(crate) fn is_feed(byte: u8) -> bool
    ensures { result ≡ is_feed byte }
{
    byte == b'\n'
}

pub(crate) fn begins_character(byte: u8) -> bool
    ensures { result ≡ begins_character byte }
{
    byte < 128 || byte >= 192
}
