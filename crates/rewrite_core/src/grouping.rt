//! The rule of groupings.
ghost use Rattle.std.specs.Prelude.{◌≡◌, ◌+◌, IfOk, length, map};
ghost use Rattle.bag_algebra.specs.Kinds.{width_of};
ghost use Rattle.bag_algebra.specs.Rewriting.{IsRewrite, Stands};
ghost use Rattle.bag_algebra.specs.declared.query.JoinKind.TheVariants.{Left};
ghost use Rattle.bag_algebra.specs.declared.query.Query.TheVariants.{Aggregate};
ghost use Rattle.bag_algebra.specs.declared.query.Query.{Query};
ghost use Rattle.rewrite_core.specs.rewritings.KeptColumns.{pairs_of, columns_kept};
ghost use Rattle.rewrite_core.specs.rewritings.OpenSublinks.{NoOpenSublink};
ghost use Rattle.rewrite_core.specs.SameGroups.{same_groups};

use crate::rewritings::{join_kept, sum};
use bag_algebra::{Aggr, Expr, Query, exact_width};
use contribution::{outwards, same_columns};
use perm_values::{List, NoMemory, both};
use std::alloc::Global;

/// A rewriting of the grouping of what the input stands for: each row of the grouping beside the rewriting's rows with the
/// same group values, two NULLs being the same, and beside NULLs where there is none, which is so for the one row over no
/// row alone. It fails only for want of memory.
pub fn aggregate(
    alloc: Global,
    input: Query,
    rewriting: Query,
    groups: &[usize],
    aggregates: &[Aggr],
) -> Result<Query, NoMemory>
    ensures rewrites { IfOk result (λ p. (q : Query) → Stands q input → IsRewrite q rewriting →
        IsRewrite (Aggregate q groups.now aggregates.now) p) }
    ensures none_open { IfOk result (λ p. NoOpenSublink input → NoOpenSublink rewriting → NoOpenSublink p) }
{
    let Ok(plain) = plain_grouping(alloc, input, groups, aggregates) else {
        drop(rewriting);
        return Err(NoMemory);
    };
    let Plain {
        rows,
        kept,
        columns,
    } = plain;
    beside_class(alloc, rows, rewriting, groups, kept, columns)
}

/// A grouping, the number of its columns, and that of its input's.
struct Plain {
    rows: Query,
    kept: usize,
    columns: usize,
}

fn plain_grouping(
    alloc: Global,
    input: Query,
    groups: &[usize],
    aggregates: &[Aggr],
) -> Result<Plain, NoMemory>
    ensures rows { IfOk result (λ plain. plain.rows ≡ Aggregate input groups.now aggregates.now) }
    ensures kept { IfOk result (λ plain. plain.kept ≡ length groups.now + length aggregates.now) }
    ensures columns { IfOk result (λ plain. plain.columns ≡ width_of input) }
{
    let Ok((kept, columns)) = both(sum(groups.len(), aggregates.len()), exact_width(&input)) else {
        drop(input);
        return Err(NoMemory);
    };
    Ok(Plain {
        rows: grouped_rows(alloc, input, groups, aggregates)?,
        kept,
        columns,
    })
}

fn grouped_rows(
    alloc: Global,
    input: Query,
    groups: &[usize],
    aggregates: &[Aggr],
) -> Result<Query, NoMemory>
    ensures { IfOk result (λ p. p ≡ Aggregate input groups.now aggregates.now) }
{
    let copies = both(
        List::copy_of(alloc, groups),
        List::copy_of(alloc, aggregates),
    );
    let Ok((groups, aggregates)) = copies else {
        drop(input);
        return Err(NoMemory);
    };
    Query::aggregate(alloc, input, groups, aggregates)
}

/// Each row of the grouping beside the rewriting's rows of its class, without the columns before the provenance.
fn beside_class(
    alloc: Global,
    plain: Query,
    rewriting: Query,
    groups: &[usize],
    kept: usize,
    columns: usize,
) -> Result<Query, NoMemory>
    ensures { IfOk result (λ p. p ≡
        columns_kept (pairs_of Left plain rewriting (same_groups groups.now kept)) kept columns) }
{
    let Ok(same) = same_groups(alloc, groups, kept) else {
        drop(plain);
        drop(rewriting);
        return Err(NoMemory);
    };
    // the row over no row stands beside NULLs
    join_kept(alloc, outwards(), plain, rewriting, same, kept, columns)
}

/// Whether the first columns are the same as those at the places of the groups, counted from a place on.
fn same_groups(alloc: Global, groups: &[usize], from: usize) -> Result<Expr, NoMemory>
    ensures { IfOk result (λ test. test ≡ same_groups groups.now from) }
{
    let first = List::range(alloc, 0, groups.len())?;
    let others = counted_from(alloc, groups, from)?;
    same_columns(alloc, 0, first.as_slice(), others.as_slice())
}

fn counted_from(alloc: Global, places: &[usize], from: usize) -> Result<List<usize>, NoMemory>
    ensures { IfOk result (λ list. list ≡ map (λ place. from + place) places.now) }
{
    let mut list = List::new(alloc);
    for place in places {
        list.push(sum(from, *place)?)?;
    }
    Ok(list)
}
