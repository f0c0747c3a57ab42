ghost use Rattle.std.specs.Prelude.{◌≡◌};
ghost use Rattle.name_seen_parts.specs.declared.refusal.Refusal.TheVariants.{Break as Broken, NoMemory as OutOfMemory};

use name_meaning::Break;
use perm_values::NoMemory;

/// Why what stands in a statement is not resolved.
#[derive(Clone, Copy, PartialEq, Eq)]
pub enum Refusal {
    /// The first rule of names and kinds that it breaks.
    Break(Break),
    /// There was not enough memory.
    NoMemory,
}

impl From<Break> for Refusal {
    ghost from_gives = { λ first refusal. refusal ≡ Broken first };

    fn from(first: Break) -> Refusal {
        Refusal::Break(first)
    }
}

impl From<NoMemory> for Refusal {
    ghost from_gives = { λ _ refusal. refusal ≡ OutOfMemory };

    fn from(_error: NoMemory) -> Refusal {
        Refusal::NoMemory
    }
}
