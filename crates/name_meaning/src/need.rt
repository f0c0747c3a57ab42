use perm_values::Kind;

/// What is needed of an operand: a kind, one that unites with those of the other operands, or nothing.
#[derive(Clone, Copy, PartialEq, Eq)]
pub enum Need {
    OfKind(Kind),
    Alike,
    Free,
}

/// What the whole gives: a kind, or the one to which its operands were united.
#[derive(Clone, Copy, PartialEq, Eq)]
pub enum Gives {
    Always(Kind),
    Common,
}
