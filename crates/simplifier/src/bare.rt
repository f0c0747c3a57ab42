//! EXISTS over the rows that decide it, without the projections above them whose columns nobody reads.
ghost use Rattle.std.specs.Prelude.{◌≡◌, IsTrue};
ghost use Rattle.bag_algebra.specs.FaultFree.{items_faultless};
ghost use Rattle.simplifier.specs.Bare.{AllBared, IsBared, IsUnread, StandsUnread};

use bag_algebra::{Query, SubKind, Sublink, items_faultless};
use perm_values::List;
use simpler_laws::input_of;
use std::mem::replace;

/// The sublinks, each EXISTS over what is below the projections that can't fault. It takes no memory.
pub(crate) fn bared(subs: List<Sublink>) -> List<Sublink>
    ensures { AllBared subs result }
{
    let mut others = subs.into_vec();
    for sub in others.iter_mut() {
        lay_bare(sub);
    }
    List::from_vec(others)
}

fn lay_bare(sub: &mut Sublink)
    ensures { IsBared sub.old sub.new }
{
    if matches!(sub.kind, SubKind::Exists) {
        let query = replace(&mut sub.query, Query::Single);
        drop(replace(&mut sub.query, below(query)));
    }
}

/// The query below the projections without sublinks that can't fault.
fn below(query: Query) -> Query
    ensures { StandsUnread query result }
{
    if is_unread(&query) {
        return below(input_of(query));
    }
    query
}

/// Whether nothing but columns, which nobody reads, is lost with the topmost node.
fn is_unread(query: &Query) -> bool
    ensures { IsTrue result → IsUnread query.now }
{
    match query {
        Query::Project { items, subs, .. } => {
            subs.is_empty() && items_faultless(items.as_slice())
        }
        _ => false,
    }
}
