//! Lists of sublinks, which grow by the results of calls.
ghost use Rattle.std.specs.Prelude.{◌++◌, [], ◌∷◌, List, IfOk, OnOk};
ghost use Rattle.bag_algebra.specs.Rewriting.{Stands};
ghost use Rattle.bag_algebra.specs.declared.query.Sublink.{Sublink};
ghost use Rattle.query_laws.specs.Standing.{SubsStand};

use bag_algebra::{Query, Sublink};
use contribution::sublink_over;
use perm_values::{List, NoMemory};
use std::alloc::Global;

/// Adds the sublink over what stands for its query. It fails where that failed, and for want of memory.
pub fn add_standing(
    alloc: Global,
    others: &mut List<Sublink>,
    sub: &Sublink,
    query: Result<Query, NoMemory>,
) -> Result<(), NoMemory>
    ensures { (subs : List Sublink) → SubsStand subs others.old → IfOk query (λ b. Stands sub.now.query b) →
        OnOk result (SubsStand (subs ++ sub.now ∷ []) others.new) }
{
    let query = query?;
    let other = sublink_over(alloc, sub, query)?;
    others.push(other)
}
