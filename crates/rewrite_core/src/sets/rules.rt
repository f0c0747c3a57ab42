//! The rules of LIMIT, INTERSECT and EXCEPT.
ghost use Rattle.std.specs.Prelude.{◌≡◌, IfOk};
ghost use Rattle.bag_algebra.specs.Kinds.{width_of};
ghost use Rattle.bag_algebra.specs.Rewriting.{IsRewrite, Stands};
ghost use Rattle.bag_algebra.specs.declared.query.Query.TheVariants.{Except, Intersect, Limit};
ghost use Rattle.bag_algebra.specs.declared.query.Query.{Query};
ghost use Rattle.rewrite_core.specs.rewritings.OpenSublinks.{NoOpenSublink};

use crate::rewritings::join_on_first_columns;
use crate::sets::columns::columns_of;
use crate::sets::others::{Counted, beside_others, remaining};
use bag_algebra::{Query, exact_width};
use perm_values::{Key, List, NoMemory, both};
use std::alloc::Global;

/// A rewriting of the first rows, as many at most, of what the input stands for: the first rows of the input, each beside
/// the rewriting's rows that begin with it. It fails only for want of memory.
pub fn limit(
    alloc: Global,
    input: Query,
    rewriting: Query,
    keys: &[Key],
    count: u64,
) -> Result<Query, NoMemory>
    ensures rewrites { IfOk result (λ p. (q : Query) → Stands q input → IsRewrite q rewriting →
        IsRewrite (Limit q keys.now count) p) }
    ensures none_open { IfOk result (λ p. NoOpenSublink input → NoOpenSublink rewriting → NoOpenSublink p) }
{
    let Ok(plain) = limited(alloc, input, keys, count) else {
        drop(rewriting);
        return Err(NoMemory);
    };
    let FirstRows { rows, columns } = plain;
    join_on_first_columns(alloc, rows, rewriting, columns, columns)
}

/// The first rows of a query, and the number of their columns.
struct FirstRows {
    rows: Query,
    columns: usize,
}

fn limited(alloc: Global, input: Query, keys: &[Key], count: u64) -> Result<FirstRows, NoMemory>
    ensures rows { IfOk result (λ plain. plain.rows ≡ Limit input keys.now count) }
    ensures columns { IfOk result (λ plain. plain.columns ≡ width_of input) }
{
    let Ok((columns, keys)) = both(exact_width(&input), List::copy_of(alloc, keys)) else {
        drop(input);
        return Err(NoMemory);
    };
    Ok(FirstRows {
        rows: Query::limit(alloc, input, keys, count)?,
        columns,
    })
}

/// A rewriting of the rows that stand in both inputs: the rows of the left rewriting, each beside those of the right one
/// that begin with the same row. How often a row stands in both is free, so ALL changes nothing, and the right input's
/// rewriting says all of it. It fails only for want of memory.
pub fn intersect(
    alloc: Global,
    all: bool,
    left: &Query,
    left_rewriting: Query,
    right: &Query,
    right_rewriting: Query,
) -> Result<Query, NoMemory>
    ensures rewrites { IfOk result (λ p.
        IsRewrite left.now left_rewriting → IsRewrite right.now right_rewriting →
        IsRewrite (Intersect all left.now right.now) p) }
    ensures none_open { IfOk result (λ p. NoOpenSublink left_rewriting → NoOpenSublink right_rewriting →
        NoOpenSublink p) }
{
    let Ok(columns) = columns_of(left, &left_rewriting) else {
        drop(left_rewriting);
        drop(right_rewriting);
        return Err(NoMemory);
    };
    join_on_first_columns(
        alloc,
        left_rewriting,
        right_rewriting,
        columns.own,
        columns.kept,
    )
}

/// A rewriting of the rows of the left input that aren't in the right one, or with ALL of those that stand in the left one
/// more often: each of them beside the left rewriting's rows that begin with it, and beside the right rewriting's rows that
/// begin with another row; beside NULLs where none does. It fails only for want of memory.
pub fn except(
    alloc: Global,
    all: bool,
    left: Query,
    left_rewriting: Query,
    right: Query,
    right_rewriting: Query,
) -> Result<Query, NoMemory>
    ensures rewrites { IfOk result (λ p. (l r : Query) → Stands l left → IsRewrite l left_rewriting →
        Stands r right → IsRewrite r right_rewriting → IsRewrite (Except all l r) p) }
    ensures none_open { IfOk result (λ p. NoOpenSublink left → NoOpenSublink left_rewriting →
        NoOpenSublink right → NoOpenSublink right_rewriting → NoOpenSublink p) }
{
    let Ok(rest) = remaining(alloc, all, left, left_rewriting, right) else {
        drop(right_rewriting);
        return Err(NoMemory);
    };
    let Counted { rows, columns } = rest;
    beside_others(alloc, rows, right_rewriting, columns)
}
