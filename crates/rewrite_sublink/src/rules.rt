//! The rules of Filters and Projects with sublinks.
ghost use Rattle.std.specs.Prelude.{◌≡◌, IfOk, IsTrue, length};
ghost use Rattle.bag_algebra.specs.Kinds.{width_of};
ghost use Rattle.bag_algebra.specs.Rewriting.{IsRewrite};
ghost use Rattle.bag_algebra.specs.declared.query.Query.TheVariants.{Filter, Project};
ghost use Rattle.query_laws.specs.Standing.{SubsStand};
ghost use Rattle.bag_algebra.specs.built.Scopes.{all_over_tables};
ghost use Rattle.rewrite_sublink.specs.Candidates.{all_contributed, answer_columns, answer_places, beside_row};
ghost use Rattle.rewrite_sublink.specs.SubRewritings.{SubsRewritten};

use crate::candidates::with_contributions;
use bag_algebra::{Expr, Item, Query, Sublink, exact_width};
use contribution::{columns_at, regroup};
use perm_values::{Copyable, List, NoMemory, both};
use rewrite_core::sum;
use std::alloc::Global;

/// A rewriting of the input's rows on which the condition is true, where sublinks of any kind stand in it: the condition
/// over the input's rewriting, and then for each sublink in turn the candidates of its cross base that are one of its
/// contributions. `standing` has for each sublink a plain one that stands for it, and `sub_rewritings` a rewriting of each
/// sublink's query, in their order. It fails only for want of memory.
pub fn filter_with(
    alloc: Global,
    input: &Query,
    rewriting: Query,
    condition: &Expr,
    subs: &[Sublink],
    standing: &[Sublink],
    sub_rewritings: List<Query>,
) -> Result<Query, NoMemory>
    requires over_tables { IsTrue (all_over_tables subs.now) }
    requires input { IsRewrite input.now rewriting }
    requires standing { SubsStand subs.now standing.now }
    requires rewritten { SubsRewritten subs.now sub_rewritings }
    ensures { IfOk result (λ p. IsRewrite (Filter input.now condition.now subs.now) p) }
{
    let rows = own_rows(alloc, rewriting, condition, standing)?;
    with_contributions(alloc, rows, subs, standing, sub_rewritings.as_slice())
}

/// A rewriting of what the items make of the input's rows, where sublinks of any kind stand in them: the items over the
/// input's rewriting, and then for each sublink in turn the candidates of its cross base that are one of its contributions.
/// `standing` has for each sublink a plain one that stands for it, and `sub_rewritings` a rewriting of each sublink's query,
/// in their order. It fails only for want of memory.
pub fn project_with(
    alloc: Global,
    input: &Query,
    rewriting: Query,
    items: &[Item],
    subs: &[Sublink],
    standing: &[Sublink],
    sub_rewritings: List<Query>,
) -> Result<Query, NoMemory>
    requires over_tables { IsTrue (all_over_tables subs.now) }
    requires input { IsRewrite input.now rewriting }
    requires standing { SubsStand subs.now standing.now }
    requires rewritten { SubsRewritten subs.now sub_rewritings }
    ensures { IfOk result (λ p. IsRewrite (Project input.now items.now subs.now) p) }
{
    let rewritings = sub_rewritings.as_slice();
    items_with(alloc, input, rewriting, items, subs, standing, rewritings)
}

/// The items over the rewriting, beside its provenance and what the sublinks contribute.
fn items_with(
    alloc: Global,
    input: &Query,
    rewriting: Query,
    items: &[Item],
    subs: &[Sublink],
    standing: &[Sublink],
    rewritings: &[Query],
) -> Result<Query, NoMemory>
    requires over_tables { IsTrue (all_over_tables subs.now) }
    requires as_many { length subs.now ≡ length standing.now }
    requires rewritten { length subs.now ≡ length rewritings.now }
    ensures { IfOk result (λ p. p ≡
        answer_columns
        (all_contributed (Project rewriting (beside_row rewriting items.now) standing.now)
        subs.now standing.now rewritings.now)
        (width_of input.now) (width_of rewriting) (length items.now)) }
{
    let Ok(own) = exact_width(input) else {
        drop(rewriting);
        return Err(NoMemory);
    };
    let Ok(row) = exact_width(&rewriting) else {
        drop(rewriting);
        return Err(NoMemory);
    };
    let rows = own_items(alloc, rewriting, items, standing)?;
    let whole = with_contributions(alloc, rows, subs, standing, rewritings)?;
    answer_columns(alloc, whole, own, row, items.len())
}

/// The rows of the rewriting on which the condition is true, with what stands for the sublinks: what the rule of a Filter adds
/// the contributions to. It fails only for want of memory.
pub fn own_rows(
    alloc: Global,
    rewriting: Query,
    condition: &Expr,
    standing: &[Sublink],
) -> Result<Query, NoMemory>
    ensures { IfOk result (λ p. p ≡ Filter rewriting condition.now standing.now) }
{
    let Ok((condition, subs)) = both(condition.copy(alloc), List::copy_of(alloc, standing)) else {
        drop(rewriting);
        return Err(NoMemory);
    };
    Query::filter(alloc, rewriting, condition, subs)
}

/// The rows of the rewriting with the items behind them, and what stands for the sublinks: what the rule of a Project adds the
/// contributions to. It fails only for want of memory.
pub fn own_items(
    alloc: Global,
    rewriting: Query,
    items: &[Item],
    standing: &[Sublink],
) -> Result<Query, NoMemory>
    ensures { IfOk result (λ p. p ≡ Project rewriting (beside_row rewriting items.now) standing.now) }
{
    let parts = both(
        beside_row(alloc, &rewriting, items),
        List::copy_of(alloc, standing),
    );
    let Ok((items, subs)) = parts else {
        drop(rewriting);
        return Err(NoMemory);
    };
    Query::project(alloc, rewriting, items, subs)
}

/// All columns of the query, and then the items. It fails only for want of memory.
pub fn beside_row(alloc: Global, query: &Query, items: &[Item]) -> Result<List<Item>, NoMemory>
    ensures { IfOk result (λ all. all ≡ beside_row query.now items.now) }
{
    let places = List::range(alloc, 0, exact_width(query)?)?;
    let mut all = columns_at(alloc, query, places.as_slice())?;
    all.append(List::copy_of(alloc, items)?)?;
    Ok(all)
}

/// The items, the provenance of the rewriting, and what the sublinks contribute, of a query that has a rewriting's `row` columns,
/// of which the first `own` are its input's, then the `made` items, and then the contributions. It fails only for want of
/// memory.
pub fn answer_columns(
    alloc: Global,
    query: Query,
    own: usize,
    row: usize,
    made: usize,
) -> Result<Query, NoMemory>
    ensures { IfOk result (λ p. p ≡ answer_columns query own row made) }
{
    let Ok(places) = answer_places(alloc, &query, own, row, made) else {
        drop(query);
        return Err(NoMemory);
    };
    regroup(alloc, query, places.as_slice())
}

fn answer_places(
    alloc: Global,
    query: &Query,
    own: usize,
    row: usize,
    made: usize,
) -> Result<List<usize>, NoMemory>
    ensures { IfOk result (λ places. places ≡ answer_places own row made (width_of query.now)) }
{
    let behind = sum(row, made)?;
    let all = exact_width(query)?;
    let mut places = List::range(alloc, row, made)?;
    places.append(List::range(alloc, own, row.saturating_sub(own))?)?;
    places.append(List::range(alloc, behind, all.saturating_sub(behind))?)?;
    Ok(places)
}
