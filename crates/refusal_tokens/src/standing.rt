//! What could stand behind a front.
ghost use Rattle.std.specs.Prelude.{◌↔◌, ◌++◌, ◌∷◌, [], ℕ, IfOk, IsTrue, List as ItemsOf, OnOk};
ghost use Rattle.refusal_tokens.specs.Standing.{AreThose, AreWords, CouldStand};
ghost use Rattle.refusal_tokens.specs.Tables.{texts_of};

use crate::begins::begins_script;
use crate::tables::{NAMES, WORDS};
use perm_values::{Bytes, List, NoMemory};
use std::alloc::Global;

/// Whether a text could stand behind a front.
fn could_stand(alloc: Global, front: &[u8], text: &str) -> Result<bool, NoMemory>
    ensures { IfOk result (λ could. IsTrue could ↔ CouldStand front.now text.now) }
{
    let mut bytes = Bytes::with_room(alloc, front.len())?;
    bytes.add(front)?;
    // A line feed ends a comment, too.
    bytes.add(b"\n")?;
    bytes.add(text.as_bytes())?;
    begins_script(alloc, bytes.as_slice())
}

/// Those of some texts that could stand behind a front. It fails only for want of memory.
pub(crate) fn those_of(
    alloc: Global,
    front: &[u8],
    texts: &[&'static str],
) -> Result<List<&'static str>, NoMemory>
    ensures { IfOk result (λ those. AreThose front.now (texts_of texts.now) (texts_of those)) }
{
    let mut those = List::new(alloc);
    for text in texts {
        add_standing(alloc, front, text, &mut those)?;
    }
    Ok(those)
}

/// Adds a text to those that could stand, where it could.
fn add_standing(
    alloc: Global,
    front: &[u8],
    text: &'static str,
    those: &mut List<&'static str>,
) -> Result<(), NoMemory>
    ensures { (texts : ItemsOf (ItemsOf ℕ)) → AreThose front.now texts (texts_of those.old)
        → OnOk result (AreThose front.now (texts ++ text.now ∷ []) (texts_of those.new)) }
{
    let could = could_stand(alloc, front, text)?;
    if could {
        return those.push(text);
    }
    Ok(())
}

/// The words that could stand behind a front: those that may be names only where no name could. It fails only for want of memory.
pub(crate) fn words_behind(alloc: Global, front: &[u8]) -> Result<List<&'static str>, NoMemory>
    ensures { IfOk result (λ those. AreWords front.now (texts_of those)) }
{
    let mut those = those_of(alloc, front, &WORDS)?;
    if could_stand(alloc, front, "x")? {
        return Ok(those);
    }
    those.append(those_of(alloc, front, &NAMES)?)?;
    Ok(those)
}
