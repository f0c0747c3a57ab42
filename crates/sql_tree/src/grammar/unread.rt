use perm_values::NoMemory;

/// Why nothing was read: the cursor stands at a token that can't stand there, or there was not enough memory.
#[derive(Clone, Copy, PartialEq, Eq)]
pub enum Unread {
    Unexpected,
    NoMemory,
}

impl From<NoMemory> for Unread {
    ghost use Rattle.std.specs.Prelude.{◌≡◌};
    ghost use Rattle.sql_tree.specs.declared.grammar.unread.Unread.TheVariants.{NoMemory as out_of_memory};

    ghost from_gives = { λ _ unread. unread ≡ out_of_memory };

    fn from(_error: NoMemory) -> Unread {
        Unread::NoMemory
    }
}
