//! The rows that a query doesn't have over what is left of a table, and a query behind another.
ghost use Rattle.std.specs.Prelude.{◌≡◌, IfOk, IsTrue};
ghost use Rattle.query_facts.specs.monotone.Monotone.{is_monotone};
ghost use Rattle.delete_impact.specs.reduced.Reduced.{behind, missing, missing_part};

use crate::reduced::some_rows::{over_rows, reduced};
use bag_algebra::{Expr, JoinKind, Query};
use perm_values::{Copyable, List, NoMemory, both};
use std::alloc::Global;

/// The rows of a monotone query, each once, that it doesn't have over the rows of the table of the identity of which the condition
/// isn't true, two NULLs being the same. It is run both ways. It fails only for want of memory.
pub fn missing(alloc: Global, query: &Query, id: u64, condition: &Expr) -> Result<Query, NoMemory>
    ensures { IfOk result (λ p. IsTrue (is_monotone query.now) → p ≡ missing id condition.now query.now) }
{
    let (rows, others) = both(query.copy(alloc), reduced(alloc, query, id, condition))?;
    Query::except(alloc, false, rows, others)
}

/// The rows, each once, that a monotone query has over the rows of the table of the identity on which the condition is true, and
/// hasn't over the others, two NULLs being the same. It is run over both. It fails only for want of memory.
pub fn missing_part(
    alloc: Global,
    query: &Query,
    id: u64,
    condition: &Expr,
) -> Result<Query, NoMemory>
    ensures { IfOk result (λ p. IsTrue (is_monotone query.now) →
        p ≡ missing_part id condition.now query.now) }
{
    let (going, others) = both(
        over_rows(alloc, query, id, condition),
        reduced(alloc, query, id, condition),
    )?;
    Query::except(alloc, false, going, others)
}

/// The rows of a closed query where the first is good; where the first is bad, its faults alone, and the query isn't run. It fails
/// only for want of memory.
pub fn behind(alloc: Global, first: Query, query: Query) -> Result<Query, NoMemory>
    ensures { IfOk result (λ p. p ≡ behind first query) }
{
    let Ok(one_row) = Query::aggregate(alloc, first, List::new(alloc), List::new(alloc)) else {
        drop(query);
        return Err(NoMemory);
    };
    Query::apply(alloc, JoinKind::Inner, one_row, query)
}
