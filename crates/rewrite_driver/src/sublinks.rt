//! Lists of sublinks and of rewritings of their queries, which grow by the results of calls.
ghost use Rattle.std.specs.Prelude.{◌++◌, [], ◌∷◌, List, IfOk, OnOk};
ghost use Rattle.bag_algebra.specs.declared.query.Sublink.{Sublink};
ghost use Rattle.rewrite_driver.specs.KeptClosed.{RewritesClosed, StandsClosed, SubsStandClosed, SubsTracedClosed};
ghost use Rattle.rewrite_move.specs.Traced.{traced_of};

use bag_algebra::{Query, Sublink};
use contribution::sublink_over;
use perm_values::{List, NoMemory};
use std::alloc::Global;

/// Adds the sublink over that query.
pub(crate) fn add_standing(
    alloc: Global,
    others: &mut List<Sublink>,
    sub: &Sublink,
    query: Result<Query, NoMemory>,
) -> Result<(), NoMemory>
    ensures { (subs : List Sublink) → SubsStandClosed subs others.old →
        IfOk query (λ b. StandsClosed sub.now.query b) →
        OnOk result (SubsStandClosed (subs ++ sub.now ∷ []) others.new) }
{
    let query = query?;
    let other = sublink_over(alloc, sub, query)?;
    others.push(other)
}

/// Adds the rewriting.
pub(crate) fn add_rewriting(
    rewritings: &mut List<Query>,
    query: Result<Query, NoMemory>,
) -> Result<(), NoMemory>
    ensures { (subs : List Sublink) (sub : Sublink) → SubsTracedClosed subs rewritings.old →
        IfOk query (λ p. RewritesClosed (traced_of sub) p) →
        OnOk result (SubsTracedClosed (subs ++ sub ∷ []) rewritings.new) }
{
    let query = query?;
    rewritings.push(query)
}
