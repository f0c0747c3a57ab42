//! Bytes that are kept in place.
ghost use Rattle.std.specs.Prelude.{◌≡◌, ◌≤◌, ◌+◌, ◌++◌, length, take};
ghost use Rattle.perm_io.specs.watched.Kept.{last_of};
ghost use Rattle.perm_io.specs.declared.watched.kept.TheConstants.{LAST, NAME};

use arrayvec::ArrayVec;

/// How many of the last bytes are kept.
pub(crate) const LAST: usize = 128;

/// How many bytes of a name are kept: as many as a path of the system has at most.
pub(crate) const NAME: usize = 4096;

/// The last of the bytes kept so far with others behind them.
pub(crate) fn last_of(kept: &[u8], more: &[u8]) -> ArrayVec<u8, LAST>
    ensures { result.items ≡ last_of LAST (kept.now ++ more.now) }
{
    let mut last = ArrayVec::new();
    let behind = end_of(more, LAST);
    let before = end_of(kept, LAST - behind.len());
    add(&mut last, before);
    add(&mut last, behind);
    last
}

/// So many bytes at the end, or all.
fn end_of(bytes: &[u8], count: usize) -> &[u8]
    ensures { result.now ≡ last_of count bytes.now }
{
    &bytes[bytes.len().saturating_sub(count)..]
}

/// Adds bytes for which there is room.
fn add<const ROOM: usize>(kept: &mut ArrayVec<u8, ROOM>, more: &[u8])
    requires { length kept.old.items + length more.now ≤ ROOM }
    ensures { kept.new.items ≡ kept.old.items ++ more.now }
{
    let _fits = kept.try_extend_from_slice(more);
}

/// The first bytes of a name, as many as are kept.
pub(crate) fn front_of(name: &[u8]) -> ArrayVec<u8, NAME>
    ensures { result.items ≡ take NAME name.now }
{
    let mut front = ArrayVec::new();
    add(&mut front, start_of(name, NAME));
    front
}

/// So many bytes at the beginning, or all.
fn start_of(bytes: &[u8], count: usize) -> &[u8]
    ensures value { result.now ≡ take count bytes.now }
    ensures fits { length result.now ≤ count }
{
    if bytes.len() <= count {
        bytes
    } else {
        &bytes[..count]
    }
}
