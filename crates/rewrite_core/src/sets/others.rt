//! The rows that EXCEPT leaves, beside the right rows that differ from them.
ghost use Rattle.std.specs.Prelude.{◌≡◌, IfOk};
ghost use Rattle.bag_algebra.specs.declared.query.JoinKind.TheVariants.{Inner, Left};
ghost use Rattle.bag_algebra.specs.declared.query.Query.TheVariants.{Except};
ghost use Rattle.rewrite_core.specs.rewritings.KeptColumns.{columns_kept, differs_from_first, pairs_of, same_as_first};
ghost use Rattle.rewrite_core.specs.ColumnsOf.{ColumnsOf};
ghost use Rattle.rewrite_core.specs.OtherRows.{remaining};

use crate::rewritings::{differs_from_first, join_kept, same_as_first};
use crate::sets::columns::{SetWidths, columns_of};
use bag_algebra::{JoinKind, Query};
use contribution::join_on;
use perm_values::NoMemory;
use std::alloc::Global;

/// Rows made for EXCEPT, and the columns of EXCEPT and of its left rewriting.
pub(crate) struct Counted {
    pub(crate) rows: Query,
    pub(crate) columns: SetWidths,
}

/// Each row of the left rewriting that begins with one of the rows that EXCEPT leaves, and that row behind it.
pub(crate) fn remaining(
    alloc: Global,
    all: bool,
    left: Query,
    rewriting: Query,
    right: Query,
) -> Result<Counted, NoMemory>
    ensures rows { IfOk result (λ rest. rest.rows ≡
        remaining (Except all left right) rewriting rest.columns.own rest.columns.kept) }
    ensures columns { IfOk result (λ rest. ColumnsOf rest.columns left rewriting) }
{
    let Ok(plain) = difference(alloc, all, left, &rewriting, right) else {
        drop(rewriting);
        return Err(NoMemory);
    };
    let Counted { rows, columns } = plain;
    Ok(Counted {
        rows: same_rows(alloc, rewriting, rows, columns)?,
        columns,
    })
}

fn difference(
    alloc: Global,
    all: bool,
    left: Query,
    rewriting: &Query,
    right: Query,
) -> Result<Counted, NoMemory>
    ensures rows { IfOk result (λ plain. plain.rows ≡ Except all left right) }
    ensures columns { IfOk result (λ plain. ColumnsOf plain.columns left rewriting.now) }
{
    let Ok(columns) = columns_of(&left, rewriting) else {
        drop(left);
        drop(right);
        return Err(NoMemory);
    };
    Ok(Counted {
        rows: Query::except(alloc, all, left, right)?,
        columns,
    })
}

fn same_rows(
    alloc: Global,
    rewriting: Query,
    plain: Query,
    columns: SetWidths,
) -> Result<Query, NoMemory>
    ensures { IfOk result (λ p. p ≡ pairs_of Inner rewriting plain (same_as_first columns.own columns.kept)) }
{
    let Ok(same) = same_as_first(alloc, columns.own, columns.kept) else {
        drop(rewriting);
        drop(plain);
        return Err(NoMemory);
    };
    join_on(alloc, JoinKind::Inner, rewriting, plain, same)
}

/// The rows that remain, each beside the rows of the right rewriting that begin with another row, or beside NULLs.
pub(crate) fn beside_others(
    alloc: Global,
    rest: Query,
    right: Query,
    columns: SetWidths,
) -> Result<Query, NoMemory>
    ensures { IfOk result (λ p. p ≡
        columns_kept (pairs_of Left rest right (differs_from_first columns.own columns.right))
        columns.kept columns.left_out) }
{
    let Ok(others) = differs_from_first(alloc, columns.own, columns.right) else {
        drop(rest);
        drop(right);
        return Err(NoMemory);
    };
    join_kept(
        alloc,
        JoinKind::Left,
        rest,
        right,
        others,
        columns.kept,
        columns.left_out,
    )
}
