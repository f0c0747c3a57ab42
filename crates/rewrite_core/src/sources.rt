//! The rule of sources.
ghost use Rattle.std.specs.Prelude.{◌≡◌, ◌++◌, IfOk};
ghost use Rattle.std.specs.List.{range_with_len};
ghost use Rattle.bag_algebra.specs.Kinds.{width_of};
ghost use Rattle.bag_algebra.specs.Rewriting.{IsRewrite, Stands};
ghost use Rattle.bag_algebra.specs.declared.query.Label.{Label};
ghost use Rattle.bag_algebra.specs.declared.query.Query.TheVariants.{Base};
ghost use Rattle.bag_algebra.specs.declared.query.Query.{Query};
ghost use Rattle.rewrite_core.specs.rewritings.OpenSublinks.{NoOpenSublink};

use crate::columns::with_columns;
use bag_algebra::{Query, exact_width};
use perm_values::{List, NoMemory};
use std::alloc::Global;

/// A rewriting of the source with these places over a query for which the input stands: the input's columns, and then those
/// at the places. It fails only for want of memory.
pub fn base(alloc: Global, input: Query, places: &[usize]) -> Result<Query, NoMemory>
    ensures rewrites { IfOk result (λ p. (q : Query) (label : Label) →
        Stands q input → IsRewrite (Base q places.now label) p) }
    ensures none_open { IfOk result (λ p. NoOpenSublink input → NoOpenSublink p) }
{
    let Ok(order) = columns_and(alloc, &input, places) else {
        drop(input);
        return Err(NoMemory);
    };
    with_columns(alloc, input, order.as_slice())
}

/// The places of all columns of the query, and then those.
fn columns_and(alloc: Global, query: &Query, places: &[usize]) -> Result<List<usize>, NoMemory>
    ensures { IfOk result (λ order. order ≡ range_with_len 0 (width_of query.now) ++ places.now) }
{
    let mut order = List::range(alloc, 0, exact_width(query)?)?;
    order.append(List::copy_of(alloc, places)?)?;
    Ok(order)
}
