ghost use Rattle.std.specs.Prelude.{◌≡◌, [], ◌∷◌, ◌++◌, OnOk, OnErr};

use crate::NoMemory;

/// The places that the first item of a list makes room for: most lists of a script's trees hold one item or two.
const FIRST_ROOM: usize = 2;

/// Adds an item at the end. It fails only for want of memory, and then the items are as before.
pub(crate) fn push_tightly<T: Drop>(items: &mut Vec<T>, item: T) -> Result<(), NoMemory>
    ensures ok { OnOk result (items.new.items ≡ items.old.items ++ item ∷ []) }
    ensures err { OnErr result (items.new.items ≡ items.old.items) }
{
    if items.capacity() == 0 {
        items.reserve_exact(FIRST_ROOM)?;
    }
    items.push(item)?;
    Ok(())
}
