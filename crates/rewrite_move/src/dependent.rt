//! Where dependent joins stand beside the rows for all sublinks of a condition.
ghost use Rattle.std.specs.Prelude.{◌≡◌, not, IfOk};
ghost use Rattle.std.specs.List.{list_all};
ghost use Rattle.query_laws.specs.spines.Spines.{is_spine};
ghost use Rattle.rewrite_move.specs.ForcedTruths.{forces};
ghost use Rattle.rewrite_move.specs.Shares.{all_by_value, all_dependent, is_by_value, share_of};

use crate::forced::forces;
use crate::share::{Share, share_of};
use bag_algebra::{Expr, Query, Sublink};
use perm_values::NoMemory;
use query_laws::spine_of;
use std::alloc::Global;

/// Whether each sublink of a condition has a dependent join, by its value: the value decides what contributes, and no ordinary join
/// serves beside the rewriting of its query, which is then the one that is traced. It fails only for want of memory.
pub fn all_dependent(
    alloc: Global,
    condition: &Expr,
    subs: &[Sublink],
    rewritings: &[Query],
) -> Result<bool, NoMemory>
    ensures { IfOk result (λ found. found ≡ all_dependent condition.now subs.now rewritings.now) }
{
    if !all_by_value(condition, subs) {
        return Ok(false);
    }
    no_spines(alloc, rewritings)
}

/// Whether the value of each sublink decides, as of an ANY or ALL on which no truth is forced.
fn all_by_value(condition: &Expr, subs: &[Sublink]) -> bool
    ensures { result ≡ all_by_value condition.now 0 subs.now }
{
    for at in 0..subs.len() {
        if !decides(condition, at, &subs[at]) {
            return false;
        }
    }
    true
}

/// Whether the value of the sublink with that number decides.
fn decides(condition: &Expr, number: usize, sub: &Sublink) -> bool
    ensures { result ≡ is_by_value (share_of sub.now.kind (forces condition.now number)) }
{
    is_by_value(share_of(sub.kind, forces(condition, number)))
}

fn is_by_value(share: Share) -> bool
    ensures { result ≡ is_by_value share }
{
    match share {
        Share::NoRow => false,
        Share::AllRows => false,
        Share::MatchingRows(_) => false,
        Share::ByValue => true,
    }
}

/// Whether none of the queries is a spine.
fn no_spines(alloc: Global, queries: &[Query]) -> Result<bool, NoMemory>
    ensures { IfOk result (λ none. none ≡ list_all (λ query. not (is_spine query)) queries.now) }
{
    for query in queries {
        let found = is_spine(alloc, query)?;
        if found {
            return Ok(false);
        }
    }
    Ok(true)
}

/// Whether the query is a spine, beside rows of whatever width.
fn is_spine(alloc: Global, query: &Query) -> Result<bool, NoMemory>
    ensures { IfOk result (λ found. found ≡ is_spine query.now) }
{
    let found = spine_of(alloc, query, 0)?;
    Ok(found.is_some())
}
