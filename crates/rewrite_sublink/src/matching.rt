//! The rows of a sublink's rewriting that match a candidate.
ghost use Rattle.std.specs.Prelude.{◌≡◌, IfOk};
ghost use Rattle.rewrite_sublink.specs.Candidates.{first_column, matching, or_nulls, same_as_outer};

use crate::decisions::candidate_level;
use bag_algebra::{Expr, Query};
use contribution::{always, columns_at, join_on, outwards, projection, same_columns, selection};
use perm_values::{Copyable, List, NoMemory};
use std::alloc::Global;

/// Where a candidate stands: as many columns, from a place on in the outer row, and from another place on in the rows of the
/// rewriting.
#[derive(Clone, Copy)]
pub(crate) struct CandidateColumns {
    pub(crate) count: usize,
    pub(crate) from: usize,
    pub(crate) own: usize,
}

/// The rewriting's rows, or one row of NULLs where it has none, that have the candidate's columns.
pub(crate) fn matching(
    alloc: Global,
    rewriting: &Query,
    columns: CandidateColumns,
) -> Result<Query, NoMemory>
    ensures { IfOk result (λ p. p ≡ matching columns.count columns.from columns.own rewriting.now) }
{
    let rows = or_nulls(alloc, rewriting)?;
    let Ok(same) = same_as_outer(alloc, columns) else {
        drop(rows);
        return Err(NoMemory);
    };
    selection(alloc, rows, same)
}

fn or_nulls(alloc: Global, rewriting: &Query) -> Result<Query, NoMemory>
    ensures { IfOk result (λ p. p ≡ or_nulls rewriting.now) }
{
    let rows = rewriting.copy(alloc)?;
    // where there is no row, a row of NULLs stands
    join_on(alloc, outwards(), Query::Single, rows, always())
}

/// Whether the own columns are, one by one, the same as the candidate's, two NULLs included.
fn same_as_outer(alloc: Global, columns: CandidateColumns) -> Result<Expr, NoMemory>
    ensures { IfOk result (λ test. test ≡ same_as_outer columns.count columns.from columns.own) }
{
    let theirs = List::range(alloc, columns.from, columns.count)?;
    let own = List::range(alloc, columns.own, columns.count)?;
    same_columns(alloc, candidate_level(), theirs.as_slice(), own.as_slice())
}

pub(crate) fn first_column(alloc: Global, query: &Query) -> Result<Query, NoMemory>
    ensures { IfOk result (λ p. p ≡ first_column query.now) }
{
    let items = columns_at(alloc, query, &[0])?;
    let rows = query.copy(alloc)?;
    projection(alloc, rows, items)
}
