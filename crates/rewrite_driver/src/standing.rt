//! Nodes over what stands for their inputs and for their sublinks' queries. They take the results of the calls that make
//! these, so that no query is at hand where one of those calls fails.
ghost use Rattle.std.specs.Prelude.{List, IfOk};
ghost use Rattle.bag_algebra.specs.declared.query.Query.TheVariants.{Filter, Project, Join, Apply, Union, Intersect, Except, Distinct, Aggregate, Limit, Prov};
ghost use Rattle.bag_algebra.specs.declared.query.Query.{Query};
ghost use Rattle.bag_algebra.specs.declared.query.Sublink.{Sublink};
ghost use Rattle.rewrite_driver.specs.KeptClosed.{RewritesClosed, StandsClosed, SubsStandClosed};

use bag_algebra::{Aggr, Expr, Item, JoinKind, Query, Sublink};
use perm_values::{Copyable, Key, List, NoMemory, both, four, three};
use std::alloc::Global;

/// What stands for a Filter over what stands for its input and its sublinks. It fails where one of these failed, and for want of memory.
pub(crate) fn filter_standing(
    alloc: Global,
    input: Result<Query, NoMemory>,
    condition: &Expr,
    subs: Result<List<Sublink>, NoMemory>,
) -> Result<Query, NoMemory>
    ensures { (q : Query) (originals : List Sublink) → IfOk input (λ b. StandsClosed q b) →
        IfOk subs (λ others. SubsStandClosed originals others) →
        IfOk result (λ p. StandsClosed (Filter q condition.now originals) p) }
{
    let (input, condition, subs) = three(input, condition.copy(alloc), subs)?;
    Query::filter(alloc, input, condition, subs)
}

/// What stands for a Project over what stands for its input and its sublinks. It fails where one of these failed, and for want of memory.
pub(crate) fn project_standing(
    alloc: Global,
    input: Result<Query, NoMemory>,
    items: &List<Item>,
    subs: Result<List<Sublink>, NoMemory>,
) -> Result<Query, NoMemory>
    ensures { (q : Query) (originals : List Sublink) → IfOk input (λ b. StandsClosed q b) →
        IfOk subs (λ others. SubsStandClosed originals others) →
        IfOk result (λ p. StandsClosed (Project q items.now originals) p) }
{
    let (input, items, subs) = three(input, items.copy(alloc), subs)?;
    Query::project(alloc, input, items, subs)
}

/// What stands for a Join over what stands for its inputs and its sublinks. It fails where one of these failed, and for want of memory.
pub(crate) fn join_standing(
    alloc: Global,
    kind: JoinKind,
    left: Result<Query, NoMemory>,
    right: Result<Query, NoMemory>,
    condition: &Expr,
    subs: Result<List<Sublink>, NoMemory>,
) -> Result<Query, NoMemory>
    ensures { (q r : Query) (originals : List Sublink) → IfOk left (λ b. StandsClosed q b) →
        IfOk right (λ d. StandsClosed r d) →
        IfOk subs (λ others. SubsStandClosed originals others) →
        IfOk result (λ p. StandsClosed (Join kind q r condition.now originals) p) }
{
    let (left, right, condition, subs) = four(left, right, condition.copy(alloc), subs)?;
    Query::join(alloc, kind, left, right, condition, subs)
}

/// What stands for a UNION over what stands for its inputs. It fails where one of these failed, and for want of memory.
pub(crate) fn union_standing(
    alloc: Global,
    all: bool,
    left: Result<Query, NoMemory>,
    right: Result<Query, NoMemory>,
) -> Result<Query, NoMemory>
    ensures { (q r : Query) → IfOk left (λ b. StandsClosed q b) → IfOk right (λ d. StandsClosed r d) →
        IfOk result (λ p. StandsClosed (Union all q r) p) }
{
    let (left, right) = both(left, right)?;
    Query::union(alloc, all, left, right)
}

/// What stands for a dependent join over what stands for its sides. It fails where one of these failed, and for want of memory.
pub(crate) fn apply_standing(
    alloc: Global,
    kind: JoinKind,
    left: Result<Query, NoMemory>,
    right: Result<Query, NoMemory>,
) -> Result<Query, NoMemory>
    ensures { (q r : Query) → IfOk left (λ b. StandsClosed q b) → IfOk right (λ d. StandsClosed r d) →
        IfOk result (λ p. StandsClosed (Apply kind q r) p) }
{
    let (left, right) = both(left, right)?;
    Query::apply(alloc, kind, left, right)
}

/// What stands for an INTERSECT over what stands for its inputs. It fails where one of these failed, and for want of memory.
pub(crate) fn intersect_standing(
    alloc: Global,
    all: bool,
    left: Result<Query, NoMemory>,
    right: Result<Query, NoMemory>,
) -> Result<Query, NoMemory>
    ensures { (q r : Query) → IfOk left (λ b. StandsClosed q b) → IfOk right (λ d. StandsClosed r d) →
        IfOk result (λ p. StandsClosed (Intersect all q r) p) }
{
    let (left, right) = both(left, right)?;
    Query::intersect(alloc, all, left, right)
}

/// What stands for an EXCEPT over what stands for its inputs. It fails where one of these failed, and for want of memory.
pub(crate) fn except_standing(
    alloc: Global,
    all: bool,
    left: Result<Query, NoMemory>,
    right: Result<Query, NoMemory>,
) -> Result<Query, NoMemory>
    ensures { (q r : Query) → IfOk left (λ b. StandsClosed q b) → IfOk right (λ d. StandsClosed r d) →
        IfOk result (λ p. StandsClosed (Except all q r) p) }
{
    let (left, right) = both(left, right)?;
    Query::except(alloc, all, left, right)
}

/// What stands for a DISTINCT over what stands for its input. It fails where one of these failed, and for want of memory.
pub(crate) fn distinct_standing(
    alloc: Global,
    input: Result<Query, NoMemory>,
) -> Result<Query, NoMemory>
    ensures { (q : Query) → IfOk input (λ b. StandsClosed q b) →
        IfOk result (λ p. StandsClosed (Distinct q) p) }
{
    let input = input?;
    Query::distinct(alloc, input)
}

/// What stands for an Aggregate over what stands for its input. It fails where one of these failed, and for want of memory.
pub(crate) fn aggregate_standing(
    alloc: Global,
    input: Result<Query, NoMemory>,
    groups: &List<usize>,
    aggregates: &List<Aggr>,
) -> Result<Query, NoMemory>
    ensures { (q : Query) → IfOk input (λ b. StandsClosed q b) →
        IfOk result (λ p. StandsClosed (Aggregate q groups.now aggregates.now) p) }
{
    let (input, groups, aggregates) = three(input, groups.copy(alloc), aggregates.copy(alloc))?;
    Query::aggregate(alloc, input, groups, aggregates)
}

/// What stands for a LIMIT over what stands for its input. It fails where one of these failed, and for want of memory.
pub(crate) fn limit_standing(
    alloc: Global,
    input: Result<Query, NoMemory>,
    keys: &List<Key>,
    count: u64,
) -> Result<Query, NoMemory>
    ensures { (q : Query) → IfOk input (λ b. StandsClosed q b) →
        IfOk result (λ p. StandsClosed (Limit q keys.now count) p) }
{
    let (input, keys) = both(input, keys.copy(alloc))?;
    Query::limit(alloc, input, keys, count)
}

/// Each row of a rewriting once.
pub(crate) fn provenance_standing(
    alloc: Global,
    rewriting: Result<Query, NoMemory>,
) -> Result<Query, NoMemory>
    ensures { (q : Query) → IfOk rewriting (λ r. RewritesClosed q r) →
        IfOk result (λ p. StandsClosed (Prov q) p) }
{
    let rewriting = rewriting?;
    Query::distinct(alloc, rewriting)
}
