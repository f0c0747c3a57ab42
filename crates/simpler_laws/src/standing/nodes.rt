//! Nodes over what stands for their inputs and for their sublinks' queries. They take the results of the calls that make
//! these, so that no query is at hand where one of those calls fails.
ghost use Rattle.std.specs.Prelude.{List, IfOk};
ghost use Rattle.bag_algebra.specs.Rewriting.{Stands};
ghost use Rattle.bag_algebra.specs.declared.query.Query.TheVariants.{Filter, Project, Join, Apply, Union, Intersect, Except, Aggregate, Limit};
ghost use Rattle.bag_algebra.specs.declared.query.Query.{Query};
ghost use Rattle.bag_algebra.specs.declared.query.Sublink.{Sublink};
ghost use Rattle.query_laws.specs.Standing.{SubsStand};
ghost use Rattle.simpler_laws.specs.standing.Made.{IsMadeOf, IsMadeOfBoth};

use bag_algebra::{Aggr, Expr, Item, JoinKind, Query, Sublink};
use perm_values::{Copyable, Key, List, NoMemory, both, four, three};
use std::alloc::Global;

/// What stands for a Filter over what stands for its input and its sublinks. It fails where one of these failed, and for want of memory.
pub fn filter_standing(
    alloc: Global,
    input: Result<Query, NoMemory>,
    condition: &Expr,
    subs: Result<List<Sublink>, NoMemory>,
) -> Result<Query, NoMemory>
    ensures { (q : Query) (originals : List Sublink) → IfOk input (λ b. Stands q b) →
        IfOk subs (λ others. SubsStand originals others) →
        IfOk result (λ p. Stands (Filter q condition.now originals) p) }
{
    let (input, condition, subs) = three(input, condition.copy(alloc), subs)?;
    Query::filter(alloc, input, condition, subs)
}

/// What stands for a Project over what stands for its input and its sublinks. It fails where one of these failed, and for want of memory.
pub fn project_standing(
    alloc: Global,
    input: Result<Query, NoMemory>,
    items: &List<Item>,
    subs: Result<List<Sublink>, NoMemory>,
) -> Result<Query, NoMemory>
    ensures { (q : Query) (originals : List Sublink) → IfOk input (λ b. Stands q b) →
        IfOk subs (λ others. SubsStand originals others) →
        IfOk result (λ p. Stands (Project q items.now originals) p) }
{
    let (input, items, subs) = three(input, items.copy(alloc), subs)?;
    Query::project(alloc, input, items, subs)
}

/// What stands for a Join over what stands for its inputs and its sublinks. It fails where one of these failed, and for want of memory.
pub fn join_standing(
    alloc: Global,
    kind: JoinKind,
    left: Result<Query, NoMemory>,
    right: Result<Query, NoMemory>,
    condition: &Expr,
    subs: Result<List<Sublink>, NoMemory>,
) -> Result<Query, NoMemory>
    ensures { (q r : Query) (originals : List Sublink) → IfOk left (λ b. Stands q b) →
        IfOk right (λ d. Stands r d) →
        IfOk subs (λ others. SubsStand originals others) →
        IfOk result (λ p. Stands (Join kind q r condition.now originals) p) }
{
    let (left, right, condition, subs) = four(left, right, condition.copy(alloc), subs)?;
    Query::join(alloc, kind, left, right, condition, subs)
}

/// What stands for a UNION over what stands for its inputs. It fails where one of these failed, and for want of memory.
pub fn union_standing(
    alloc: Global,
    all: bool,
    left: Result<Query, NoMemory>,
    right: Result<Query, NoMemory>,
) -> Result<Query, NoMemory>
    ensures stands { (q r : Query) → IfOk left (λ b. Stands q b) → IfOk right (λ d. Stands r d) →
        IfOk result (λ p. Stands (Union all q r) p) }
    ensures made { IfOk result (λ p. IsMadeOfBoth left right (Union all) p) }
{
    let (left, right) = both(left, right)?;
    Query::union(alloc, all, left, right)
}

/// What stands for a dependent join over what stands for its sides. It fails where one of these failed, and for want of memory.
pub fn apply_standing(
    alloc: Global,
    kind: JoinKind,
    left: Result<Query, NoMemory>,
    right: Result<Query, NoMemory>,
) -> Result<Query, NoMemory>
    ensures stands { (q r : Query) → IfOk left (λ b. Stands q b) → IfOk right (λ d. Stands r d) →
        IfOk result (λ p. Stands (Apply kind q r) p) }
    ensures made { IfOk result (λ p. IsMadeOfBoth left right (Apply kind) p) }
{
    let (left, right) = both(left, right)?;
    Query::apply(alloc, kind, left, right)
}

/// What stands for an INTERSECT over what stands for its inputs. It fails where one of these failed, and for want of memory.
pub fn intersect_standing(
    alloc: Global,
    all: bool,
    left: Result<Query, NoMemory>,
    right: Result<Query, NoMemory>,
) -> Result<Query, NoMemory>
    ensures stands { (q r : Query) → IfOk left (λ b. Stands q b) → IfOk right (λ d. Stands r d) →
        IfOk result (λ p. Stands (Intersect all q r) p) }
    ensures made { IfOk result (λ p. IsMadeOfBoth left right (Intersect all) p) }
{
    let (left, right) = both(left, right)?;
    Query::intersect(alloc, all, left, right)
}

/// What stands for an EXCEPT over what stands for its inputs. It fails where one of these failed, and for want of memory.
pub fn except_standing(
    alloc: Global,
    all: bool,
    left: Result<Query, NoMemory>,
    right: Result<Query, NoMemory>,
) -> Result<Query, NoMemory>
    ensures stands { (q r : Query) → IfOk left (λ b. Stands q b) → IfOk right (λ d. Stands r d) →
        IfOk result (λ p. Stands (Except all q r) p) }
    ensures made { IfOk result (λ p. IsMadeOfBoth left right (Except all) p) }
{
    let (left, right) = both(left, right)?;
    Query::except(alloc, all, left, right)
}

/// What stands for an Aggregate over what stands for its input. It fails where one of these failed, and for want of memory.
pub fn aggregate_standing(
    alloc: Global,
    input: Result<Query, NoMemory>,
    groups: &List<usize>,
    aggregates: &List<Aggr>,
) -> Result<Query, NoMemory>
    ensures { (q : Query) → IfOk input (λ b. Stands q b) →
        IfOk result (λ p. Stands (Aggregate q groups.now aggregates.now) p) }
{
    let (input, groups, aggregates) = three(input, groups.copy(alloc), aggregates.copy(alloc))?;
    Query::aggregate(alloc, input, groups, aggregates)
}

/// What stands for a LIMIT over what stands for its input. It fails where one of these failed, and for want of memory.
pub fn limit_standing(
    alloc: Global,
    input: Result<Query, NoMemory>,
    keys: &List<Key>,
    count: u64,
) -> Result<Query, NoMemory>
    ensures stands { (q : Query) → IfOk input (λ b. Stands q b) →
        IfOk result (λ p. Stands (Limit q keys.now count) p) }
    ensures made { IfOk result (λ p. IsMadeOf input (λ b. Limit b keys.now count) p) }
{
    let (input, keys) = both(input, keys.copy(alloc))?;
    Query::limit(alloc, input, keys, count)
}
