//! Results taken together. The functions are generic, so that what is let go where one of several is wanting isn't taken
//! apart in each function that needs them.
ghost use Rattle.std.specs.Prelude.{◌≡◌, ◌∷◌, [], ◌++◌, Ok, Err, IfOk, IfErr, IsOkAnd};

use perm_values::{List, NoMemory, both};
use std::alloc::Global;

/// What is there beside what may have failed.
pub fn beside<A: Drop, B: Drop>(first: A, second: Result<B, NoMemory>) -> Result<(A, B), NoMemory>
    ensures first_kept { IfOk result (λ pair. pair.0 ≡ first) }
    ensures second_was { IfOk result (λ pair. second ≡ Ok pair.1) }
    ensures lacking { IfErr result (λ lack. second ≡ Err lack) }
{
    let second = second?;
    Ok((first, second))
}

/// One more item at the end of the list.
pub fn with_more<T: Drop>(items: List<T>, item: Result<T, NoMemory>) -> Result<List<T>, NoMemory>
    ensures { IfOk result (λ all. IsOkAnd item (λ item. all ≡ items ++ item ∷ [])) }
{
    let item = item?;
    let mut all = items;
    all.push(item)?;
    Ok(all)
}

/// The list of two.
pub(crate) fn two<T: Drop>(
    alloc: Global,
    first: Result<T, NoMemory>,
    second: Result<T, NoMemory>,
) -> Result<List<T>, NoMemory>
    ensures { IfOk result (λ all. IsOkAnd first (λ first. IsOkAnd second (λ second.
        all ≡ first ∷ second ∷ []))) }
{
    let (first, second) = both(first, second)?;
    let mut all = List::new(alloc);
    all.push(first)?;
    all.push(second)?;
    Ok(all)
}

/// The item before the items of a list.
pub(crate) fn headed<T: Drop>(
    alloc: Global,
    item: Result<T, NoMemory>,
    items: Result<List<T>, NoMemory>,
) -> Result<List<T>, NoMemory>
    ensures { IfOk result (λ all. IsOkAnd item (λ item. IsOkAnd items (λ items. all ≡ item ∷ items))) }
{
    let (item, items) = both(item, items)?;
    let mut all = List::new(alloc);
    all.push(item)?;
    all.append(items)?;
    Ok(all)
}
