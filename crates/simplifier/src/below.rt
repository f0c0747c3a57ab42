//! Spines whose base is looked for below a projection.
ghost use Rattle.std.specs.Prelude.{◌≡◌, ℕ, [], ◌∷◌, IfOk, IfSome};
ghost use Rattle.bag_algebra.specs.declared.query.Query.TheVariants.{Project};
ghost use Rattle.bag_algebra.specs.declared.query.Query.{Query};
ghost use Rattle.query_laws.specs.spines.Spines.{IsSpine, spine_over};

use bag_algebra::{Item, Query, faultless};
use perm_values::{List, NoMemory};
use query_laws::{Spine, placed, spine_of};
use std::alloc::Global;

/// The spine that a query is beside rows of so many columns, if one is found: of a projection to one column over its input's, also
/// where the whole reads no outer row. It fails only for want of memory.
pub(crate) fn spine_below(
    alloc: Global,
    query: &Query,
    width: usize,
) -> Result<Option<Spine>, NoMemory>
    ensures { IfOk result (λ found. IfSome found (λ spine. IsSpine width query.now spine)) }
{
    match query {
        Query::Project { input, items, subs } => {
            if !subs.is_empty() {
                return Ok(None);
            }
            match spine_of(alloc, input.get(), width)? {
                Some(spine) => with_items(alloc, spine, items.as_slice()),
                None => Ok(None),
            }
        }
        _ => {
            let found = spine_of(alloc, query, width)?;
            Ok(found)
        }
    }
}

/// The spine with the only item over its own.
fn with_items(alloc: Global, spine: Spine, items: &[Item]) -> Result<Option<Spine>, NoMemory>
    ensures { (width : ℕ) (input : Query) → IsSpine width input spine → IfOk result (λ found.
        IfSome found (λ made. IsSpine width (Project input items.now []) made)) }
{
    match items {
        [item] => with_item(alloc, spine, item),
        _ => {
            drop(spine);
            Ok(None)
        }
    }
}

/// The spine with an item over its own, if that can't fault.
fn with_item(alloc: Global, spine: Spine, item: &Item) -> Result<Option<Spine>, NoMemory>
    ensures { (width : ℕ) (input : Query) → IsSpine width input spine → IfOk result (λ found.
        IfSome found (λ made. IsSpine width (Project input (item.now ∷ []) []) made)) }
{
    if !faultless(&item.expr) {
        drop(spine);
        return Ok(None);
    }
    let Ok(expr) = placed(alloc, &item.expr, spine.items.as_slice()) else {
        drop(spine);
        return Err(NoMemory);
    };
    let kind = item.kind;
    let made = over_item(alloc, spine, Item { expr, kind })?;
    Ok(Some(made))
}

/// The spine with an item in the place of its own.
fn over_item(alloc: Global, spine: Spine, item: Item) -> Result<Spine, NoMemory>
    ensures { IfOk result (λ made. made ≡ spine_over spine (item ∷ [])) }
{
    let Spine { base, test, items } = spine;
    drop(items);
    let mut own = List::new(alloc);
    let Ok(()) = own.push(item) else {
        drop(base);
        drop(test);
        return Err(NoMemory);
    };
    Ok(Spine {
        base,
        test,
        items: own,
    })
}
