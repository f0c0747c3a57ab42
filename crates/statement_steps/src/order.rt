ghost use Rattle.std.specs.Prelude.{◌≡◌, IfOk};
ghost use Rattle.perm_values.specs.Rows.{printed_cmp};
ghost use Rattle.bag_algebra.specs.Bags.{sorted};

use perm_values::{Key, List, NoMemory, Row, Rows};

/// The rows in the order of the keys, then of all columns.
pub(crate) fn in_order(rows: Rows, keys: &[Key]) -> Result<Rows, NoMemory>
    ensures { IfOk result (λ ordered. ordered ≡ sorted (printed_cmp keys.now) rows) }
{
    let mut items = rows.into_vec();
    items.sort_by(|left: &Row, right: &Row| left.order_by(keys, right))?;
    Ok(List::from_vec(items))
}
