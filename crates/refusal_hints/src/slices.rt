//! Parts of bytes.
ghost use Rattle.std.specs.Prelude.{◌≡◌, length, take, drop};
ghost use Rattle.std.specs.Str.{bytes_eq};
ghost use Rattle.refusal_hints.specs.Advice.{or_else};

/// What stands from there on; nothing behind the end.
pub fn from(bytes: &[u8], at: usize) -> &[u8]
    ensures { result.now ≡ drop at bytes.now }
{
    if at < bytes.len() { &bytes[at..] } else { &[] }
}

/// What stands in front of that place; all of it, where it ends before.
pub fn up_to(bytes: &[u8], at: usize) -> &[u8]
    ensures { result.now ≡ take at bytes.now }
{
    if at < bytes.len() {
        &bytes[..at]
    } else {
        bytes
    }
}

/// Whether these are the same bytes.
pub(crate) fn same(bytes: &[u8], others: &[u8]) -> bool
    ensures { result ≡ bytes_eq bytes.now others.now }
{
    bytes == others
}

/// The first, or where it is empty the second.
pub(crate) fn or_else<'a>(first: &'a [u8], second: &'a [u8]) -> &'a [u8]
    ensures { result.now ≡ or_else first.now second.now }
{
    if first.is_empty() { second } else { first }
}
