ghost use Rattle.std.specs.Prelude.{◌≡◌, ◌+◌, IfOk};

use perm_values::NoMemory;

/// A number so far behind another. It fails only where no `usize` holds that one: no text has so many columns, so memory is
/// wanting.
pub fn behind(number: usize, more: usize) -> Result<usize, NoMemory>
    ensures { IfOk result (λ sum. sum ≡ number + more) }
{
    match number.checked_add(more) {
        Some(sum) => Ok(sum),
        None => Err(NoMemory),
    }
}
