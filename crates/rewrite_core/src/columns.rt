//! The columns of a query at places.
ghost use Rattle.std.specs.Prelude.{◌≡◌, [], IfOk, IsTrue};
ghost use Rattle.std.specs.List.{range_with_len};
ghost use Rattle.bag_algebra.specs.ColumnItems.{column_items};
ghost use Rattle.bag_algebra.specs.Kinds.{kinds_of, width_of};
ghost use Rattle.bag_algebra.specs.built.Patterns.{ProjectOf};
ghost use Rattle.bag_algebra.specs.Rewriting.{IsRewrite};
ghost use Rattle.bag_algebra.specs.declared.query.Query.{Query, end_of-Sublink};
ghost use Rattle.rewrite_core.specs.rewritings.OpenSublinks.{NoOpenSublink};

use bag_algebra::{Query, exact_width};
use contribution::regroup;
use perm_values::{List, NoMemory};
use std::alloc::Global;

/// The query itself where those are the places of all its columns in order, else the projection to its columns there.
pub(crate) fn with_columns(alloc: Global, query: Query, order: &[usize]) -> Result<Query, NoMemory>
    ensures laid { IfOk result (λ p. (q : Query) →
        IsRewrite q (ProjectOf query (column_items (kinds_of query) order.now) [] end_of-Sublink) →
        IsRewrite q p) }
    ensures none_open { IfOk result (λ p. NoOpenSublink query → NoOpenSublink p) }
{
    let Ok(all) = is_all_columns(alloc, &query, order) else {
        drop(query);
        return Err(NoMemory);
    };
    if all {
        return Ok(query);
    }
    regroup(alloc, query, order)
}

fn is_all_columns(alloc: Global, query: &Query, order: &[usize]) -> Result<bool, NoMemory>
    ensures { IfOk result (λ same. IsTrue same → order.now ≡ range_with_len 0 (width_of query.now)) }
{
    let all = List::range(alloc, 0, exact_width(query)?)?;
    Ok(order == all.as_slice())
}
