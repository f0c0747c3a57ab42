//! Laws of values and rows: each is the contract of a function that does nothing.
ghost use Rattle.std.specs.Prelude.{◌≡◌, IsTrue, ◌↔◌, List};
ghost use Rattle.std.specs.Bool.{Decides};
ghost use Rattle.std.specs.Cmp.{IsTotalOrder};
ghost use Rattle.std.specs.declared.cmp.Ordering.TheVariants.{Equal};
ghost use Rattle.perm_values.specs.Rows.{same_row, row_cmp, printed_cmp};
ghost use Rattle.perm_values.specs.Values.{same_value, value_cmp};
ghost use Rattle.perm_values.specs.declared.key.Key.{Key};
ghost use Rattle.perm_values.specs.declared.value.Value.{Value as Cell};

/// Two values are the same exactly where they are equal in every respect, and two rows likewise.
pub fn same_is_equality()
    ensures of_values { (x y : Cell) → Decides (same_value x y) (x ≡ y) }
    ensures of_rows { (u v : List Cell) → Decides (same_row u v) (u ≡ v) }
{}

/// The order of values is total, that of rows too, and neither ties what isn't the same.
pub fn order_is_total()
    ensures of_values { IsTotalOrder value_cmp }
    ensures of_rows { IsTotalOrder row_cmp }
    ensures value_ties { (x y : Cell) → Decides (same_value x y) (value_cmp x y ≡ Equal) }
    ensures row_ties { (u v : List Cell) → Decides (same_row u v) (row_cmp u v ≡ Equal) }
{}

/// The printed order is total for any keys, and ties only rows that are the same.
pub fn printed_order_is_total()
    ensures total { (keys : List Key) → IsTotalOrder (printed_cmp keys) }
    ensures ties { (keys : List Key) (u v : List Cell) → printed_cmp keys u v ≡ Equal → u ≡ v }
{}
