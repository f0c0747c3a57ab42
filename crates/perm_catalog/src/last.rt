ghost use Rattle.std.specs.Prelude.{◌≡◌, ◌++◌, ◌∷◌, [], ◌<◌, None, IfOk, OnOk, nat_eq};
ghost use Rattle.std.specs.Cmp.Lexicographic.{pointwise};
ghost use Rattle.indexmap.specs.IndexMap.{IsUnchanged, get, spare};

use indexmap::IndexMap;
use perm_values::{Chars, Copyable, NoMemory};
use std::alloc::Global;

/// Makes room for one more entry, and changes no entry.
fn make_room<V>(entries: &mut IndexMap<Chars, V>) -> Result<(), NoMemory>
    ensures entries { entries.new.entries ≡ entries.old.entries }
    ensures room { OnOk result (0 < spare entries.new) }
{
    match entries.reserve(1) {
        Ok(()) => Ok(()),
        Err(_) => Err(NoMemory),
    }
}

/// A copy of the name, and room for one more entry. It changes no entry.
pub(crate) fn room_for<V>(
    alloc: Global,
    entries: &mut IndexMap<Chars, V>,
    name: &Chars,
) -> Result<Chars, NoMemory>
    ensures name { IfOk result (λ key. key ≡ name.now) }
    ensures entries { entries.new.entries ≡ entries.old.entries }
    ensures room { OnOk result (0 < spare entries.new) }
{
    make_room(entries)?;
    name.copy(alloc)
}

/// Adds an entry at the end, for which there is room.
pub(crate) fn add_last<V: Drop>(entries: &mut IndexMap<Chars, V>, key: Chars, entry: V)
    requires room { 0 < spare entries.old }
    requires absent { get (pointwise nat_eq) entries.old key ≡ None }
    ensures { entries.new.entries ≡ entries.old.entries ++ (key, entry) ∷ [] }
{
    let _ = entries.insert(key, entry);
}
