//! The sides of the dependent joins: a right side has the provenance of what contributes, and a left side may hold what chooses it.
ghost use Rattle.std.specs.Prelude.{◌≡◌, ◌∷◌, [], IfOk};
ghost use Rattle.bag_algebra.specs.Kinds.{kind_in, kinds_of, width_of};
ghost use Rattle.bag_algebra.specs.declared.query.Query.TheVariants.{Project};
ghost use Rattle.rewrite_sublink.specs.Candidates.{beside_row};
ghost use Rattle.lateral_rewrite.specs.Dependent.{beside, chosen_provenance, chosen_rows, provenance_of, value_items, valued};

use crate::choices::Choice;
use crate::chosen::contributes;
use bag_algebra::{Expr, Item, Query, Sublink, exact_width};
use contribution::{kind_or_text, kinds, outwards, selection};
use perm_values::{Copyable, Kind, List, NoMemory, both};
use rewrite_core::columns_kept;
use rewrite_sublink::beside_row;
use std::alloc::Global;

/// Each row beside each row of the right side, which sees it as its nearest outer row, and beside NULLs where that has none.
/// It fails only for want of memory.
pub(crate) fn beside(alloc: Global, rows: Query, right: Query) -> Result<Query, NoMemory>
    ensures { IfOk result (λ p. p ≡ beside rows right) }
{
    Query::apply(alloc, outwards(), rows, right)
}

/// The provenance of all rows of the sublink's query.
pub(crate) fn provenance(
    alloc: Global,
    standing: &Sublink,
    rewriting: &Query,
) -> Result<Query, NoMemory>
    ensures { IfOk result (λ p. p ≡ provenance_of rewriting.now (width_of standing.now.query)) }
{
    let own = exact_width(&standing.query)?;
    let rows = rewriting.copy(alloc)?;
    columns_kept(alloc, rows, 0, own)
}

/// The provenance of those rows that contribute to a row that holds the sublink's value at the place.
pub fn chosen_provenance(
    alloc: Global,
    choice: Choice,
    place: usize,
    standing: &Sublink,
    rewriting: &Query,
) -> Result<Query, NoMemory>
    ensures { IfOk result (λ p. p ≡ chosen_provenance choice place standing.now rewriting.now) }
{
    let own = exact_width(&standing.query)?;
    let rows = chosen_rows(alloc, choice, place, rewriting)?;
    columns_kept(alloc, rows, 0, own)
}

fn chosen_rows(
    alloc: Global,
    choice: Choice,
    place: usize,
    rewriting: &Query,
) -> Result<Query, NoMemory>
    ensures { IfOk result (λ p. p ≡ chosen_rows choice place rewriting.now) }
{
    let rows = rewriting.copy(alloc)?;
    let Ok(test) = contributes(alloc, choice, place) else {
        drop(rows);
        return Err(NoMemory);
    };
    selection(alloc, rows, test)
}

/// The rows with the sublink's value behind them, and its left operand.
pub fn valued(
    alloc: Global,
    rows: Query,
    standing: &Sublink,
    operand: &Expr,
) -> Result<Query, NoMemory>
    ensures { IfOk result (λ p. p ≡ valued rows standing.now operand.now) }
{
    let parts = both(
        valued_items(alloc, &rows, standing, operand),
        alone(alloc, standing),
    );
    let Ok((items, subs)) = parts else {
        drop(rows);
        return Err(NoMemory);
    };
    Query::project(alloc, rows, items, subs)
}

fn alone(alloc: Global, standing: &Sublink) -> Result<List<Sublink>, NoMemory>
    ensures { IfOk result (λ subs. subs ≡ standing.now ∷ []) }
{
    let mut subs = List::new(alloc);
    subs.push(standing.copy(alloc)?)?;
    Ok(subs)
}

fn valued_items(
    alloc: Global,
    rows: &Query,
    standing: &Sublink,
    operand: &Expr,
) -> Result<List<Item>, NoMemory>
    ensures { IfOk result (λ items. items ≡ beside_row rows.now (value_items standing.now operand.now)) }
{
    let items = value_items(alloc, standing, operand)?;
    beside_row(alloc, rows, items.as_slice())
}

fn value_items(alloc: Global, standing: &Sublink, operand: &Expr) -> Result<List<Item>, NoMemory>
    ensures { IfOk result (λ items. items ≡ value_items standing.now operand.now) }
{
    let kind = operand_kind(alloc, standing)?;
    let expr = operand.copy(alloc)?;
    let value = Item {
        expr: Expr::Sub { number: 0 },
        kind: Kind::Boolean,
    };
    item_pair(alloc, value, Item { expr, kind })
}

fn item_pair(alloc: Global, first: Item, second: Item) -> Result<List<Item>, NoMemory>
    ensures { IfOk result (λ items. items ≡ first ∷ second ∷ []) }
{
    let mut items = List::new(alloc);
    let Ok(()) = items.push(first) else {
        drop(second);
        return Err(NoMemory);
    };
    items.push(second)?;
    Ok(items)
}

/// The left operand has the kind of the query's one column.
fn operand_kind(alloc: Global, standing: &Sublink) -> Result<Kind, NoMemory>
    ensures { IfOk result (λ kind. kind ≡ kind_in (kinds_of standing.now.query) 0) }
{
    let kinds = kinds(alloc, &standing.query)?;
    Ok(kind_or_text(kinds.as_slice(), 0))
}
