ghost use Rattle.std.specs.Prelude.{◌≡◌, IfOk};
ghost use Rattle.statement_meaning.specs.Turns.{counting};

use perm_values::{Bytes, NoMemory};
use std::alloc::Global;

/// The bytes in memory of their own.
pub(crate) fn text_of(alloc: Global, bytes: &[u8]) -> Result<Bytes, NoMemory>
    ensures { IfOk result (λ text. text ≡ bytes.now) }
{
    let mut text = Bytes::new(alloc);
    text.add(bytes)?;
    Ok(text)
}

/// A word, how many rows it met, and the end of the line.
pub(crate) fn counting(alloc: Global, word: &[u8], count: usize) -> Result<Bytes, NoMemory>
    ensures { IfOk result (λ text. text ≡ counting word.now count) }
{
    let number = count.to_string(alloc)?;
    let mut text = text_of(alloc, word)?;
    text.add(number.as_bytes())?;
    text.add(b"\n")?;
    Ok(text)
}
