//! The rules of nodes over one input.
ghost use Rattle.std.specs.Prelude.{◌≡◌, ◌++◌, [], Ok, IfOk};
ghost use Rattle.bag_algebra.specs.Rewriting.{IsRewrite};
ghost use Rattle.bag_algebra.specs.declared.query.Query.TheVariants.{Distinct, Filter, Project};
ghost use Rattle.rewrite_core.specs.rewritings.OpenSublinks.{NoOpenSublink};
ghost use Rattle.rewrite_core.specs.ProvenanceColumns.{provenance_items};

use bag_algebra::{Expr, Item, Query, exact_width};
use contribution::{columns_at, projection, selection};
use perm_values::{Copyable, List, NoMemory};
use std::alloc::Global;

/// A rewriting of the input's distinct rows: that of the input, since how often a row stands in a rewriting is free. It
/// takes no memory.
pub fn distinct(input: &Query, rewriting: Query) -> Result<Query, NoMemory>
    requires { IsRewrite input.now rewriting }
    ensures rewrites { IfOk result (λ p. IsRewrite (Distinct input.now) p) }
    ensures itself { result ≡ Ok rewriting }
{
    Ok(rewriting)
}

/// A rewriting of the input's rows on which the condition, without sublinks, is true: the condition over the input's
/// rewriting, whose first columns are the input's. It fails only for want of memory.
pub fn filter(
    alloc: Global,
    input: &Query,
    rewriting: Query,
    condition: &Expr,
) -> Result<Query, NoMemory>
    requires { IsRewrite input.now rewriting }
    ensures rewrites { IfOk result (λ p. IsRewrite (Filter input.now condition.now []) p) }
    ensures none_open { IfOk result (λ p. NoOpenSublink rewriting → NoOpenSublink p) }
{
    let Ok(condition) = condition.copy(alloc) else {
        drop(rewriting);
        return Err(NoMemory);
    };
    selection(alloc, rewriting, condition)
}

/// A rewriting of what the items, without sublinks, make of the input's rows: the items over the input's rewriting, and
/// then its provenance columns. It fails only for want of memory.
pub fn project(
    alloc: Global,
    input: &Query,
    rewriting: Query,
    items: &[Item],
) -> Result<Query, NoMemory>
    requires { IsRewrite input.now rewriting }
    ensures rewrites { IfOk result (λ p. IsRewrite (Project input.now items.now []) p) }
    ensures none_open { IfOk result (λ p. NoOpenSublink rewriting → NoOpenSublink p) }
{
    let Ok(items) = with_provenance(alloc, input, &rewriting, items) else {
        drop(rewriting);
        return Err(NoMemory);
    };
    projection(alloc, rewriting, items)
}

/// The items, and then the columns that the rewriting has behind the input's.
fn with_provenance(
    alloc: Global,
    input: &Query,
    rewriting: &Query,
    items: &[Item],
) -> Result<List<Item>, NoMemory>
    ensures { IfOk result (λ all. all ≡ items.now ++ provenance_items input.now rewriting.now) }
{
    let mut all = List::copy_of(alloc, items)?;
    all.append(provenance_items(alloc, input, rewriting)?)?;
    Ok(all)
}

/// The columns that the rewriting has behind the input's.
fn provenance_items(alloc: Global, input: &Query, rewriting: &Query) -> Result<List<Item>, NoMemory>
    ensures { IfOk result (λ items. items ≡ provenance_items input.now rewriting.now) }
{
    let start = exact_width(input)?;
    let end = exact_width(rewriting)?;
    let order = List::range(alloc, start, end.saturating_sub(start))?;
    columns_at(alloc, rewriting, order.as_slice())
}
