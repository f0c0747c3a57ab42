//! Right sides of dependent joins that ordinary joins serve.
ghost use Rattle.std.specs.Prelude.{◌≡◌, ◌||◌, ℕ, true, false, not, [], Some, is_some, IfOk};
ghost use Rattle.bag_algebra.specs.FaultFree.{faultless, items_faultless};
ghost use Rattle.bag_algebra.specs.declared.query.Query.{Query};
ghost use Rattle.bag_algebra.specs.declared.query.Query.TheVariants.{Filter, Project};
ghost use Rattle.query_laws.specs.spines.Spines.{IsSpineOf, is_base, items_behind, spine_over, spine_with, tests_with};

use crate::spines::placing::{placed, placed_items};
use bag_algebra::{Expr, Item, Query, fault_free, faultless, items_faultless};
use contribution::{column, kinds};
use null_logic::Operator;
use perm_values::{Copyable, Kind, List, NoMemory};
use query_facts::is_closed;
use std::alloc::Global;

/// A query beside rows of some width: what its items make of such a row and a row of the base on which the test is true. The
/// items and the test are over the two rows together.
#[derive(Drop)]
pub struct Spine {
    pub base: Query,
    pub test: Option<Expr>,
    pub items: List<Item>,
}

/// The spine that a query is beside rows of so many columns, exactly where it is one: it is closed and fault-free, or a selection or a
/// projection without sublinks over a spine. A selection over another one has to be free of faults, and so do the items. It fails
/// only for want of memory.
#[cycle(spine_of)]
pub fn spine_of(alloc: Global, query: &Query, width: usize) -> Result<Option<Spine>, NoMemory>
    ensures { IfOk result (λ found. IsSpineOf width query.now found) }
{
    if is_base(query) {
        return closed_spine(alloc, query, width);
    }
    match query {
        Query::Table { .. } => Ok(None),
        Query::Single => Ok(None),
        Query::Base { .. } => Ok(None),
        Query::Filter {
            input,
            condition,
            subs,
        } => {
            if !subs.is_empty() {
                return Ok(None);
            }
            match spine_of(alloc, input.get(), width)? {
                Some(spine) => filtered(alloc, spine, condition),
                None => Ok(None),
            }
        }
        Query::Project { input, items, subs } => {
            if !subs.is_empty() {
                return Ok(None);
            }
            match spine_of(alloc, input.get(), width)? {
                Some(spine) => projected(alloc, spine, items.as_slice()),
                None => Ok(None),
            }
        }
        Query::Join { .. } => Ok(None),
        Query::Apply { .. } => Ok(None),
        Query::Union { .. } => Ok(None),
        Query::Intersect { .. } => Ok(None),
        Query::Except { .. } => Ok(None),
        Query::Distinct { .. } => Ok(None),
        Query::Aggregate { .. } => Ok(None),
        Query::Limit { .. } => Ok(None),
        Query::Prov { .. } => Ok(None),
    }
}

/// Whether the query reads no outer row and meets no fault.
fn is_base(query: &Query) -> bool
    ensures { result ≡ is_base query.now }
{
    is_closed(query) && fault_free(query)
}

/// The whole query as the base.
fn closed_spine(alloc: Global, query: &Query, width: usize) -> Result<Option<Spine>, NoMemory>
    requires { is_base query.now ≡ true }
    ensures { IfOk result (λ found. IsSpineOf width query.now found) }
{
    let own = kinds(alloc, query)?;
    let items = items_behind(alloc, width, own.as_slice())?;
    let Ok(base) = query.copy(alloc) else {
        drop(items);
        return Err(NoMemory);
    };
    Ok(Some(Spine {
        base,
        test: None,
        items,
    }))
}

/// The columns of a row of these kinds that stand behind so many others. Want of memory comes also where no `usize` holds a place.
pub(crate) fn items_behind(
    alloc: Global,
    before: usize,
    kinds: &[Kind],
) -> Result<List<Item>, NoMemory>
    ensures { IfOk result (λ items. items ≡ items_behind before kinds.now) }
{
    let mut items = List::new(alloc);
    let mut place = before;
    for kind in kinds {
        items.push(column(place, *kind))?;
        let Some(next) = place.checked_add(1) else {
            return Err(NoMemory);
        };
        place = next;
    }
    Ok(items)
}

/// The spine with one condition more, where that may stand over its test.
fn filtered(alloc: Global, spine: Spine, condition: &Expr) -> Result<Option<Spine>, NoMemory>
    ensures { IfOk result (λ found. (width : ℕ) (input : Query) →
        is_base (Filter input condition.now []) ≡ false →
        IsSpineOf width input (Some spine) → IsSpineOf width (Filter input condition.now []) found) }
{
    if !may_follow(&spine.test, condition) {
        drop(spine);
        return Ok(None);
    }
    let Ok(other) = placed(alloc, condition, spine.items.as_slice()) else {
        drop(spine);
        return Err(NoMemory);
    };
    Ok(Some(with_test(alloc, spine, other)?))
}

/// Whether the condition may stand over the test: it is free of faults, or there is no test.
fn may_follow(test: &Option<Expr>, condition: &Expr) -> bool
    ensures { result ≡ (not (is_some test.now) || faultless condition.now) }
{
    match test {
        None => true,
        Some(_) => faultless(condition),
    }
}

/// The spine with one test more.
fn with_test(alloc: Global, spine: Spine, other: Expr) -> Result<Spine, NoMemory>
    ensures { IfOk result (λ made. made ≡ spine_with spine other) }
{
    let Spine { base, test, items } = spine;
    let Ok(test) = tests_with(alloc, test, other) else {
        drop(base);
        drop(items);
        return Err(NoMemory);
    };
    Ok(Spine {
        base,
        test: Some(test),
        items,
    })
}

/// The test and one more.
fn tests_with(alloc: Global, test: Option<Expr>, other: Expr) -> Result<Expr, NoMemory>
    ensures { IfOk result (λ made. made ≡ tests_with test other) }
{
    let Some(test) = test else {
        return Ok(other);
    };
    let mut parts = List::new(alloc);
    parts.push(test)?;
    parts.push(other)?;
    Ok(Expr::Op {
        op: Operator::And,
        parts,
    })
}

/// The spine with other items over its own, where these are free of faults.
fn projected(alloc: Global, spine: Spine, items: &[Item]) -> Result<Option<Spine>, NoMemory>
    ensures { IfOk result (λ found. (width : ℕ) (input : Query) →
        is_base (Project input items.now []) ≡ false →
        IsSpineOf width input (Some spine) → IsSpineOf width (Project input items.now []) found) }
{
    if !items_faultless(items) {
        drop(spine);
        return Ok(None);
    }
    let Ok(made) = placed_items(alloc, items, spine.items.as_slice()) else {
        drop(spine);
        return Err(NoMemory);
    };
    Ok(Some(with_items(spine, made)))
}

fn with_items(spine: Spine, made: List<Item>) -> Spine
    ensures { result ≡ spine_over spine made }
{
    let Spine { base, test, .. } = spine;
    Spine {
        base,
        test,
        items: made,
    }
}
