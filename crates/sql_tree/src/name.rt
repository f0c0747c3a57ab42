use perm_values::Chars;

/// A name as it is held, with the offset at which it stands.
#[derive(Drop)]
pub struct Name {
    pub text: Chars,
    pub at: usize,
}

/// A reference to a column (ISO/IEC 9075-2, 'column reference'): `a`, or `x.a` for the column `a` of the item `x`.
#[derive(Drop)]
pub struct ColRef {
    pub at: usize,
    pub table: Option<Name>,
    pub name: Name,
}
