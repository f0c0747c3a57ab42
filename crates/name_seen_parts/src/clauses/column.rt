use perm_values::{Chars, Kind};

/// A column that a query shows; without a kind it is of any.
#[derive(Drop)]
pub struct ShownColumn {
    pub name: Chars,
    pub kind: Option<Kind>,
}
