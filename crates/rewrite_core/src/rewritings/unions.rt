//! Where NULLs stand in the rows of a union.
ghost use Rattle.std.specs.Prelude.{◌≡◌};
ghost use Rattle.rewrite_core.specs.rewritings.UnionSides.{before_nulls};

/// The input that a row of a union comes from.
#[derive(Clone, Copy)]
pub enum UnionSide {
    Left,
    Right,
}

/// How many columns of a side's rewriting stand before the NULLs for the other side's provenance, where the union has so many
/// and the rewriting has so many in all. The left side's provenance comes first: so the NULLs of a left row stand behind all
/// its columns, and those of a right row behind the union's own.
pub fn before_nulls(side: UnionSide, own: usize, all: usize) -> usize
    ensures { result ≡ before_nulls side own all }
{
    match side {
        UnionSide::Left => all,
        UnionSide::Right => own,
    }
}
