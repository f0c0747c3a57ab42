//! What the rules of nodes take: rewritings of inputs and of sublinks' queries, and sublinks that stand for others.
ghost use Rattle.std.specs.Prelude.{◌≡◌, [], ◌∷◌, Ok, IfOk, IsTrue};
ghost use Rattle.bag_algebra.specs.Rewriting.{IsRewrite};
ghost use Rattle.bag_algebra.specs.built.Scopes.{all_over_tables};
ghost use Rattle.query_laws.specs.Standing.{SubsStand};
ghost use Rattle.rewrite_sublink.specs.SubRewritings.{SubsRewritten};

use crate::trees::only_item;
use bag_algebra::{Query, Sublink, over_tables};
use contribution::sublink_over;
use perm_values::{Copyable, List, NoMemory, both, three};
use rewrite_driver::eliminate;
use std::alloc::Global;

/// A rewriting of the query: what stands for its PROVENANCE.
fn rewriting_of(alloc: Global, query: &Query) -> Result<Query, NoMemory>
    ensures { IfOk result (λ p. IsRewrite query.now p) }
{
    let copy = query.copy(alloc)?;
    let asked = Query::provenance(alloc, copy)?;
    let plain = eliminate(alloc, &asked);
    drop(asked);
    plain
}

/// The query, and a rewriting of it.
pub(crate) fn with_rewriting(
    alloc: Global,
    query: Result<Query, NoMemory>,
) -> Result<(Query, Query), NoMemory>
    ensures { IfOk result (λ s. IsRewrite s.0 s.1) }
{
    let query = query?;
    let rewriting = rewriting_of(alloc, &query);
    both(Ok(query), rewriting)
}

/// One that stands for the sublink.
fn standing(alloc: Global, sub: &Sublink) -> Result<List<Sublink>, NoMemory>
    ensures { IfOk result (λ others. SubsStand (sub.now ∷ []) others) }
{
    let plain = eliminate(alloc, &sub.query)?;
    let other = sublink_over(alloc, sub, plain)?;
    only_item(alloc, other)
}

/// A rewriting of the sublink's query.
fn query_rewritten(alloc: Global, sub: &Sublink) -> Result<List<Query>, NoMemory>
    ensures { IfOk result (λ rewritings. SubsRewritten (sub.now ∷ []) rewritings) }
{
    let rewriting = rewriting_of(alloc, &sub.query)?;
    only_item(alloc, rewriting)
}

/// What a rule takes for a sublink: it, one that stands for it, and a rewriting.
pub(crate) type Inside = (List<Sublink>, List<Sublink>, List<Query>);

fn whole(
    alloc: Global,
    sub: Sublink,
    rewritings: Result<List<Query>, NoMemory>,
) -> Result<Inside, NoMemory>
    ensures own { IfOk result (λ s. s.0 ≡ sub ∷ []) }
    ensures stands { IfOk result (λ s. SubsStand s.0 s.1) }
    ensures rewritings { IfOk result (λ s. rewritings ≡ Ok s.2) }
{
    let others = standing(alloc, &sub);
    let subs = only_item(alloc, sub);
    three(subs, others, rewritings)
}

/// The sublink with a rewriting of its query.
pub(crate) fn inside(alloc: Global, sub: Result<Sublink, NoMemory>) -> Result<Inside, NoMemory>
    ensures stands { IfOk result (λ s. SubsStand s.0 s.1) }
    ensures rewritten { IfOk result (λ s. SubsRewritten s.0 s.2) }
{
    let sub = sub?;
    let rewritings = query_rewritten(alloc, &sub);
    whole(alloc, sub, rewritings)
}

/// Likewise, of a query whose sources are all tables; of another one it answers want of memory.
pub(crate) fn inside_tables(
    alloc: Global,
    sub: Result<Sublink, NoMemory>,
) -> Result<Inside, NoMemory>
    ensures over_tables { IfOk result (λ s. IsTrue (all_over_tables s.0)) }
    ensures stands { IfOk result (λ s. SubsStand s.0 s.1) }
    ensures rewritten { IfOk result (λ s. SubsRewritten s.0 s.2) }
{
    let sub = sub?;
    if !over_tables(&sub.query) {
        drop(sub);
        return Err(NoMemory);
    }
    let rewritings = query_rewritten(alloc, &sub);
    whole(alloc, sub, rewritings)
}
