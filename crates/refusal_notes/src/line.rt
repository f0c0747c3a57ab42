//! The line of a cause.
ghost use Rattle.std.specs.Prelude.{◌≡◌, ◌↔◌, ◌++◌, IsTrue, codes};
ghost use Rattle.refusal_notes.specs.Causes.{line_of};

use crate::cause::Cause;
use csv_tables::{data_line, error_line};
use refusal_hints::up_to;

/// Whether the line, without its line feed, is the cause's.
pub(crate) fn is_line(cause: Cause, line: &[u8]) -> bool
    ensures { IsTrue result ↔ (line.now ++ codes "\n" ≡ line_of cause) }
{
    match cause {
        Cause::At { code, at } => is_front(error_line(code, at).as_slice(), line),
        Cause::NoScript => is_front(b"error E40 script\n", line),
        Cause::LongScript => is_front(b"error E41 script\n", line),
        Cause::Data(error) => is_front(data_line(error).as_slice(), line),
        Cause::Unread => is_front(b"error E50\n", line),
    }
}

/// Whether the whole is the line with a line feed behind it.
fn is_front(whole: &[u8], line: &[u8]) -> bool
    ensures { IsTrue result ↔ (line.now ++ codes "\n" ≡ whole.now) }
{
    let end = line.len();
    if whole.len() != end + 1 {
        return false;
    }
    if whole[end] != b'\n' {
        return false;
    }
    same(up_to(whole, end), line)
}

/// Whether these are the same bytes.
fn same(bytes: &[u8], others: &[u8]) -> bool
    ensures { IsTrue result ↔ (bytes.now ≡ others.now) }
{
    bytes == others
}
