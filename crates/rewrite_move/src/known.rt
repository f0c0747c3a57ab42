//! What stands beside rows of which a truth of the sublink is known.
ghost use Rattle.std.specs.Prelude.{◌≡◌, ◌∷◌, [], true, IfOk, map};
ghost use Rattle.bag_algebra.specs.Kinds.{width_of};
ghost use Rattle.bag_algebra.specs.Rewriting.{is_plain};
ghost use Rattle.bag_algebra.specs.built.Patterns.{FilterOf};
ghost use Rattle.bag_algebra.specs.declared.query.Query.{Query, end_of-Sublink};
ghost use Rattle.contribution.specs.NullItems.{null_item};
ghost use Rattle.lateral_rewrite.specs.Dependent.{compared};
ghost use Rattle.rewrite_sublink.specs.Candidates.{beside_row};
ghost use Rattle.rewrite_move.specs.Moved.{Like, beside_nulls, matching_beside, matching_provenance, operand_item, provenance_kinds, with_operand};

use bag_algebra::{Expr, Item, Query, Sublink, exact_width};
use contribution::{kind_or_text, kinds, kinds_at, null_items, selection};
use lateral_rewrite::{Choice, compared};
use perm_values::{Copyable, Kind, List, NoMemory};
use query_laws::beside;
use rewrite_core::columns_kept;
use rewrite_sublink::beside_row;
use std::alloc::Global;

/// The rows beside NULLs in the place of the provenance of the rewriting of a query.
pub(crate) fn beside_nothing(
    alloc: Global,
    rows: Query,
    query: &Query,
    rewriting: &Query,
) -> Result<Query, NoMemory>
    ensures { IfOk result (λ p. p ≡ beside_nulls rows (provenance_kinds rewriting.now (width_of query.now))) }
{
    let Ok(kinds) = provenance_kinds(alloc, query, rewriting) else {
        drop(rows);
        return Err(NoMemory);
    };
    with_nulls(alloc, rows, kinds.as_slice())
}

/// The kinds of the provenance columns.
fn provenance_kinds(alloc: Global, query: &Query, rewriting: &Query) -> Result<List<Kind>, NoMemory>
    ensures { IfOk result (λ kinds. kinds ≡ provenance_kinds rewriting.now (width_of query.now)) }
{
    let own = exact_width(query)?;
    let all = kinds(alloc, rewriting)?;
    let places = List::range(alloc, own, all.len().saturating_sub(own))?;
    kinds_at(alloc, all.as_slice(), places.as_slice())
}

fn with_nulls(alloc: Global, rows: Query, kinds: &[Kind]) -> Result<Query, NoMemory>
    ensures { IfOk result (λ p. p ≡ beside_nulls rows kinds.now) }
{
    let Ok(items) = columns_and_nulls(alloc, &rows, kinds) else {
        drop(rows);
        return Err(NoMemory);
    };
    Query::project(alloc, rows, items, List::new(alloc))
}

fn columns_and_nulls(alloc: Global, rows: &Query, kinds: &[Kind]) -> Result<List<Item>, NoMemory>
    ensures { IfOk result (λ items. items ≡ beside_row rows.now (map null_item kinds.now)) }
{
    let nulls = null_items(alloc, kinds)?;
    beside_row(alloc, rows, nulls.as_slice())
}

/// The rows beside the provenance of those rows of the rewriting whose comparison has the truth of the choice.
pub(crate) fn beside_matching(
    alloc: Global,
    rows: Query,
    standing: &Sublink,
    operand: &Expr,
    choice: Choice,
    rewriting: &Query,
) -> Result<Query, NoMemory>
    requires plain { is_plain rewriting.now ≡ true }
    ensures { (whole : Query) → Like whole rows →
        IfOk result (λ p. Like (matching_beside choice operand.now whole standing.now rewriting.now) p) }
{
    let Ok(place) = exact_width(&rows) else {
        drop(rows);
        return Err(NoMemory);
    };
    let Ok(right) = matching_provenance(alloc, choice, place, standing, rewriting) else {
        drop(rows);
        return Err(NoMemory);
    };
    let Ok(left) = with_operand(alloc, rows, standing, operand) else {
        drop(right);
        return Err(NoMemory);
    };
    let pairs = beside(alloc, left, right)?;
    columns_kept(alloc, pairs, place, 1)
}

/// The provenance of those rows, where the left operand stands at the place of the nearest outer row.
fn matching_provenance(
    alloc: Global,
    choice: Choice,
    place: usize,
    standing: &Sublink,
    rewriting: &Query,
) -> Result<Query, NoMemory>
    ensures { IfOk result (λ p. p ≡ matching_provenance choice place standing.now rewriting.now) }
{
    let own = exact_width(&standing.query)?;
    let rows = matching_rows(alloc, choice, place, rewriting)?;
    columns_kept(alloc, rows, 0, own)
}

fn matching_rows(
    alloc: Global,
    choice: Choice,
    place: usize,
    rewriting: &Query,
) -> Result<Query, NoMemory>
    ensures { IfOk result (λ p. p ≡ FilterOf rewriting.now (compared choice place) [] end_of-Sublink) }
{
    let rows = rewriting.copy(alloc)?;
    let Ok(test) = compared(alloc, choice, place) else {
        drop(rows);
        return Err(NoMemory);
    };
    selection(alloc, rows, test)
}

/// The rows with the left operand behind them.
fn with_operand(
    alloc: Global,
    rows: Query,
    standing: &Sublink,
    operand: &Expr,
) -> Result<Query, NoMemory>
    ensures { IfOk result (λ p. p ≡ with_operand rows standing.now operand.now) }
{
    let Ok(items) = columns_and_operand(alloc, &rows, standing, operand) else {
        drop(rows);
        return Err(NoMemory);
    };
    Query::project(alloc, rows, items, List::new(alloc))
}

fn columns_and_operand(
    alloc: Global,
    rows: &Query,
    standing: &Sublink,
    operand: &Expr,
) -> Result<List<Item>, NoMemory>
    ensures { IfOk result (λ items. items
        ≡ beside_row rows.now (operand_item standing.now operand.now ∷ [])) }
{
    let mut last = List::new(alloc);
    last.push(operand_item(alloc, standing, operand)?)?;
    beside_row(alloc, rows, last.as_slice())
}

/// The left operand has the kind of the query's one column.
fn operand_item(alloc: Global, standing: &Sublink, operand: &Expr) -> Result<Item, NoMemory>
    ensures { IfOk result (λ item. item ≡ operand_item standing.now operand.now) }
{
    let kinds = kinds(alloc, &standing.query)?;
    let kind = kind_or_text(kinds.as_slice(), 0);
    let expr = operand.copy(alloc)?;
    Ok(Item { expr, kind })
}
