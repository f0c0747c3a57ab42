//! A projection over a projection.
ghost use Rattle.std.specs.Prelude.{◌≡◌, [], List, IfOk, IfSome, IsTrue};
ghost use Rattle.bag_algebra.specs.FaultFree.{items_faultless};
ghost use Rattle.bag_algebra.specs.Rewriting.{Stands};
ghost use Rattle.bag_algebra.specs.declared.query.Query.TheVariants.{Project};
ghost use Rattle.bag_algebra.specs.declared.query.Query.{Query};
ghost use Rattle.bag_algebra.specs.declared.query.Sublink.{Sublink};
ghost use Rattle.query_laws.specs.Standing.{SubsStand};
ghost use Rattle.simpler_laws.specs.merged.Substituted.{ItemsSubstituted, IsMerged};

use crate::lowering::own_place;
use crate::merged::substituting::substituted;
use bag_algebra::{Expr, Item, Projection, Query, Sublink, items_faultless};
use perm_values::{Copyable, List, NoMemory, three};
use std::alloc::Global;

/// What stands for a Project over what stands for its input and its sublinks; one with the items below it, where these can't
/// fault and none that computes is copied. It fails where one of these failed, and for want of memory.
pub fn project_merged(
    alloc: Global,
    input: Result<Query, NoMemory>,
    items: &List<Item>,
    subs: Result<List<Sublink>, NoMemory>,
) -> Result<Query, NoMemory>
    ensures { (q : Query) (originals : List Sublink) → IfOk input (λ b. Stands q b) →
        IfOk subs (λ others. SubsStand originals others) →
        IfOk result (λ p. Stands (Project q items.now originals) p) }
{
    let (input, items, subs) = three(input, items.copy(alloc), subs)?;
    over(alloc, input, items, subs)
}

/// The Project over the input, or over the input's own.
fn over(
    alloc: Global,
    input: Query,
    items: List<Item>,
    subs: List<Sublink>,
) -> Result<Query, NoMemory>
    ensures { (q : Query) (originals : List Sublink) → Stands q input → SubsStand originals subs →
        IfOk result (λ p. Stands (Project q items originals) p) }
{
    let Ok(found) = merged(alloc, &input, items.as_slice(), subs.as_slice()) else {
        drop(input);
        drop(items);
        drop(subs);
        return Err(NoMemory);
    };
    match found {
        Some(made) => {
            drop(items);
            Query::project(alloc, input_of(input), made, subs)
        }
        None => Query::project(alloc, input, items, subs),
    }
}

/// The input of a projection. It takes no memory.
pub fn input_of(query: Query) -> Query
    ensures { (input : Query) (items : List Item) (subs : List Sublink) →
        query ≡ Project input items subs → result ≡ input }
{
    match query.into_projection() {
        Ok(Projection { input, .. }) => input,
        Err(other) => other,
    }
}

/// The items over the input of a projection, where they may be made there.
fn merged(
    alloc: Global,
    input: &Query,
    items: &[Item],
    subs: &[Sublink],
) -> Result<Option<List<Item>>, NoMemory>
    ensures { IfOk result (λ found. IfSome found (λ made.
        (subs.now ≡ []) × IsMerged input.now items.now made)) }
{
    match input {
        Query::Project {
            items: lower,
            subs: others,
            ..
        } => {
            let below = lower.as_slice();
            if !can_merge(subs, below, others.as_slice(), items) {
                return Ok(None);
            }
            Ok(Some(items_over(alloc, items, below)?))
        }
        _ => Ok(None),
    }
}

/// Whether items may be put in the place of the columns that others read: neither stand over sublinks, they can't fault, and
/// none that computes is copied.
fn can_merge(subs: &[Sublink], lower: &[Item], others: &[Sublink], items: &[Item]) -> bool
    ensures { IsTrue result →
        (subs.now ≡ []) × ((others.now ≡ []) × IsTrue (items_faultless lower.now)) }
{
    subs.is_empty() && serves_below(lower, others, items)
}

/// Whether items may be put in the place of the columns that others without sublinks read.
fn serves_below(lower: &[Item], others: &[Sublink], items: &[Item]) -> bool
    ensures { IsTrue result → (others.now ≡ []) × IsTrue (items_faultless lower.now) }
{
    is_calm(lower, others) && copies_nothing(lower, items)
}

/// Whether items over sublinks have none and can't fault.
fn is_calm(items: &[Item], subs: &[Sublink]) -> bool
    ensures { IsTrue result → (subs.now ≡ []) × IsTrue (items_faultless items.now) }
{
    subs.is_empty() && items_faultless(items)
}

/// The items over the input of the lower ones.
fn items_over(alloc: Global, items: &[Item], lower: &[Item]) -> Result<List<Item>, NoMemory>
    ensures { IfOk result (λ made. ItemsSubstituted lower.now items.now made) }
{
    let mut made = List::new(alloc);
    for item in items {
        let kind = item.kind;
        let expr = substituted(alloc, &item.expr, lower)?;
        made.push(Item { expr, kind })?;
    }
    Ok(made)
}

/// Whether no item that computes is copied where the others read the lower ones.
fn copies_nothing(lower: &[Item], items: &[Item]) -> bool {
    all_leaves(lower) || in_order(items)
}

/// Whether the items are columns and literals.
fn all_leaves(items: &[Item]) -> bool {
    for item in items {
        if !is_leaf(&item.expr) {
            return false;
        }
    }
    true
}

fn is_leaf(expr: &Expr) -> bool {
    matches!(expr, Expr::Col { .. } | Expr::Lit { .. })
}

/// Whether the items are columns of the node's own row, in their order there, so that none stands twice.
fn in_order(items: &[Item]) -> bool {
    let mut next = 0;
    for item in items {
        let Some(place) = own_place(&item.expr) else {
            return false;
        };
        let Some(after) = place.checked_add(1) else {
            return false;
        };
        if place < next {
            return false;
        }
        next = after;
    }
    true
}
