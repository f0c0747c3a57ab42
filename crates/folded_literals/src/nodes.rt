//! Nodes and sublinks over folded expressions, and over what stands for their inputs and their sublinks' queries. They take the
//! results of the calls that make these, so that no query is at hand where one of those calls fails.
ghost use Rattle.std.specs.Prelude.{◌≡◌, true, ◌&&◌, ◌++◌, [], ◌∷◌, List, IfOk, OnOk};
ghost use Rattle.bag_algebra.specs.Rewriting.{Stands};
ghost use Rattle.bag_algebra.specs.built.Scopes.{without_subs};
ghost use Rattle.bag_algebra.specs.declared.query.Query.TheVariants.{Filter, Project, Join, Aggregate};
ghost use Rattle.bag_algebra.specs.declared.query.Query.{Query};
ghost use Rattle.bag_algebra.specs.declared.query.Sublink.{Sublink};
ghost use Rattle.query_laws.specs.SameExpressions.{SameOptional};
ghost use Rattle.query_laws.specs.EveryExpression.{option_passes};
ghost use Rattle.query_laws.specs.Standing.{SubsStand};
ghost use Rattle.folded_literals.specs.Settled.{is_settled};
ghost use Rattle.folded_literals.specs.Simple.{is_simple, is_true};
ghost use Rattle.folded_literals.specs.built.Simple.{all_simple};

use crate::folding::folded;
use crate::lists::{folded_aggregates, folded_items, folded_option};
use bag_algebra::{Aggr, Expr, Item, JoinKind, Query, Sublink};
use perm_values::{Copyable, List, NoMemory, four, three};
use simpler_laws::is_always;
use std::alloc::Global;

/// What stands for a Filter over what stands for its input and its sublinks. It fails where one of these failed, and for want of
/// memory.
pub fn filter_folded(
    alloc: Global,
    input: Result<Query, NoMemory>,
    condition: &Expr,
    subs: Result<List<Sublink>, NoMemory>,
) -> Result<Query, NoMemory>
    ensures stands { (q : Query) (originals : List Sublink) → IfOk input (λ b. Stands q b) →
        IfOk subs (λ others. SubsStand originals others) →
        IfOk result (λ p. Stands (Filter q condition.now originals) p) }
    ensures simple { IfOk input (λ b. is_simple b ≡ true) → IfOk subs (λ others. all_simple others ≡ true) →
        IfOk result (λ p. is_simple p ≡ true) }
{
    let (input, condition, subs) = three(input, folded(alloc, condition), subs)?;
    if keeps_all(&condition, &subs) {
        drop(condition);
        drop(subs);
        return Ok(input);
    }
    Query::filter(alloc, input, condition, subs)
}

/// Whether a filter is TRUE without sublinks.
fn keeps_all(condition: &Expr, subs: &List<Sublink>) -> bool
    ensures { result ≡ (is_true condition.now && without_subs subs.now) }
{
    is_true(condition) && subs.is_empty()
}

fn is_true(condition: &Expr) -> bool
    ensures { result ≡ is_true condition.now }
{
    match condition {
        Expr::Lit { value, .. } => is_always(value),
        _ => false,
    }
}

/// What stands for a Project over what stands for its input and its sublinks. It fails where one of these failed, and for want of
/// memory.
pub fn project_folded(
    alloc: Global,
    input: Result<Query, NoMemory>,
    items: &List<Item>,
    subs: Result<List<Sublink>, NoMemory>,
) -> Result<Query, NoMemory>
    ensures stands { (q : Query) (originals : List Sublink) → IfOk input (λ b. Stands q b) →
        IfOk subs (λ others. SubsStand originals others) →
        IfOk result (λ p. Stands (Project q items.now originals) p) }
    ensures simple { IfOk input (λ b. is_simple b ≡ true) → IfOk subs (λ others. all_simple others ≡ true) →
        IfOk result (λ p. is_simple p ≡ true) }
{
    let made = folded_items(alloc, items.as_slice());
    let (input, made, subs) = three(input, made, subs)?;
    Query::project(alloc, input, made, subs)
}

/// What stands for a Join over what stands for its inputs and its sublinks. It fails where one of these failed, and for want of
/// memory.
pub fn join_folded(
    alloc: Global,
    kind: JoinKind,
    left: Result<Query, NoMemory>,
    right: Result<Query, NoMemory>,
    condition: &Expr,
    subs: Result<List<Sublink>, NoMemory>,
) -> Result<Query, NoMemory>
    ensures stands { (q r : Query) (originals : List Sublink) → IfOk left (λ b. Stands q b) →
        IfOk right (λ d. Stands r d) →
        IfOk subs (λ others. SubsStand originals others) →
        IfOk result (λ p. Stands (Join kind q r condition.now originals) p) }
    ensures simple { IfOk left (λ b. is_simple b ≡ true) → IfOk right (λ d. is_simple d ≡ true) →
        IfOk subs (λ others. all_simple others ≡ true) → IfOk result (λ p. is_simple p ≡ true) }
{
    let (left, right, condition, subs) = four(left, right, folded(alloc, condition), subs)?;
    Query::join(alloc, kind, left, right, condition, subs)
}

/// What stands for an Aggregate over what stands for its input. It fails where one of these failed, and for want of memory.
pub fn aggregate_folded(
    alloc: Global,
    input: Result<Query, NoMemory>,
    groups: &List<usize>,
    aggregates: &List<Aggr>,
) -> Result<Query, NoMemory>
    ensures stands { (q : Query) → IfOk input (λ b. Stands q b) →
        IfOk result (λ p. Stands (Aggregate q groups.now aggregates.now) p) }
    ensures simple { IfOk input (λ b. is_simple b ≡ true) → IfOk result (λ p. is_simple p ≡ true) }
{
    let made = folded_aggregates(alloc, aggregates.as_slice());
    let (input, groups, made) = three(input, groups.copy(alloc), made)?;
    Query::aggregate(alloc, input, groups, made)
}

/// Adds the sublink over what stands for its query. It fails where that failed, and for want of memory.
pub fn add_folded(
    alloc: Global,
    others: &mut List<Sublink>,
    sub: &Sublink,
    query: Result<Query, NoMemory>,
) -> Result<(), NoMemory>
    ensures stand { (subs : List Sublink) → SubsStand subs others.old →
        IfOk query (λ b. Stands sub.now.query b) → OnOk result (SubsStand (subs ++ sub.now ∷ []) others.new) }
    ensures simple { all_simple others.old ≡ true → IfOk query (λ b. is_simple b ≡ true) →
        OnOk result (all_simple others.new ≡ true) }
{
    let query = query?;
    let other = sublink_over(alloc, sub, query)?;
    others.push(other)
}

/// The sublink over that query, its tested operand folded.
fn sublink_over(alloc: Global, sub: &Sublink, query: Query) -> Result<Sublink, NoMemory>
    ensures kind_kept { IfOk result (λ other. other.kind ≡ sub.now.kind) }
    ensures tested_same { IfOk result (λ other. SameOptional sub.now.tested other.tested) }
    ensures tested_settled { IfOk result (λ other. option_passes is_settled other.tested ≡ true) }
    ensures over { IfOk result (λ other. other.query ≡ query) }
{
    let Ok(tested) = folded_option(alloc, &sub.tested) else {
        drop(query);
        return Err(NoMemory);
    };
    Ok(Sublink {
        kind: sub.kind,
        tested,
        query,
    })
}
