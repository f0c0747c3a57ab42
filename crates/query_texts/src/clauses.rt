//! Writes what the texts of queries are made of: SELECT lists, conditions, joins, groups and keys.
//! Writes the expressions of a node, and beside them the sublinks that they don't use: each of these may fault all the same.
ghost use Rattle.std.specs.Prelude.{◌≡◌, ◌++◌, [], ◌∷◌, cond, IfOk, OnOk};
ghost use Rattle.tree_texts.specs.expressions.ExpressionTexts.{expr_bytes};
ghost use Rattle.query_texts.specs.clauses.Frames.{called_in};
ghost use Rattle.query_texts.specs.clauses.ClauseTexts.{beside_back, beside_front, beside_text, condition_text, expr_items, item_text, never_text, nevers_text, projected_text, projecting_text, where_text};
ghost use Rattle.query_texts.specs.clauses.Unused.{items_use, spare, used_in};

use crate::clauses::lists::{push_as, push_comma};
use bag_algebra::{Expr, Item};
use perm_values::{Bytes, Copyable, Kind, List, NoMemory};
use std::alloc::Global;
use tree_texts::{Draft, push_expr, uses};

mod frame;
mod groups;
mod joins;
mod lists;
mod sublinks;
mod tables;
mod words;

pub use frame::{Frame, deeper};
pub use groups::{push_above, push_below, push_grouped};
pub use joins::{push_lateral_source, push_set, push_source};
pub use lists::{push_called, push_columns, push_limit, push_ordered, push_table, push_unread};
pub use sublinks::push_asking;
pub use tables::{TableNames, table_of};
pub use words::{all_text, any_text, asked_back, join_text, lateral_text};

/// Whether the sublink of a number stands in an item.
fn items_use(items: &[Item], number: usize) -> bool
    ensures { result ≡ items_use items.now number }
{
    for item in items {
        if uses(number, &item.expr) {
            return true;
        }
    }
    false
}

/// Adds the text of a sublink unless it is used.
fn add_unused(
    alloc: Global,
    unused: &mut List<Bytes>,
    is_used: bool,
    sub: &Bytes,
) -> Result<(), NoMemory>
    ensures { OnOk result (unused.new ≡ unused.old ++ cond is_used [] (sub.now ∷ [])) }
{
    if is_used {
        Ok(())
    } else {
        unused.push(sub.copy(alloc)?)
    }
}

/// The texts of the sublinks that a condition doesn't use.
fn unused_by(alloc: Global, condition: &Expr, subs: &[Bytes]) -> Result<List<Bytes>, NoMemory>
    ensures { IfOk result (λ unused. unused ≡ spare (used_in condition.now) 0 subs.now) }
{
    let mut unused = List::new(alloc);
    for (number, sub) in subs.iter().enumerate() {
        add_unused(alloc, &mut unused, uses(number, condition), sub)?;
    }
    Ok(unused)
}

/// The texts of the sublinks that no item uses.
fn unused_by_items(alloc: Global, items: &[Item], subs: &[Bytes]) -> Result<List<Bytes>, NoMemory>
    ensures { IfOk result (λ unused. unused ≡ spare (items_use items.now) 0 subs.now) }
{
    let mut unused = List::new(alloc);
    for (number, sub) in subs.iter().enumerate() {
        add_unused(alloc, &mut unused, items_use(items, number), sub)?;
    }
    Ok(unused)
}

/// An arm that is never chosen.
fn push_never(kind: Kind, sub: &[u8], draft: &mut Draft) -> Result<(), NoMemory>
    ensures { OnOk result (draft.new ≡ draft.old ++ never_text kind sub.now) }
{
    draft.push(b"WHEN ( ( ")?;
    draft.push(sub)?;
    draft.push(b"IS NULL ) IS NULL ) THEN ")?;
    draft.push_null(kind)
}

fn push_nevers(kind: Kind, unused: &[Bytes], draft: &mut Draft) -> Result<(), NoMemory>
    ensures { OnOk result (draft.new ≡ draft.old ++ nevers_text kind unused.now) }
{
    for sub in unused {
        push_never(kind, sub.as_slice(), draft)?;
    }
    Ok(())
}

fn push_beside_front(kind: Kind, unused: &[Bytes], draft: &mut Draft) -> Result<(), NoMemory>
    ensures { OnOk result (draft.new ≡ draft.old ++ beside_front kind unused.now) }
{
    draft.push_unless_none(unused.len(), b"CASE ")?;
    push_nevers(kind, unused, draft)?;
    draft.push_unless_none(unused.len(), b"ELSE ")
}

fn push_beside_back(unused: &[Bytes], draft: &mut Draft) -> Result<(), NoMemory>
    ensures { OnOk result (draft.new ≡ draft.old ++ beside_back unused.now) }
{
    draft.push_unless_none(unused.len(), b"END ")
}

/// An expression of a kind, and beside it sublinks that it doesn't use.
fn push_beside(
    frame: &Frame,
    subs: &[Bytes],
    unused: &[Bytes],
    kind: Kind,
    expr: &Expr,
    draft: &mut Draft,
) -> Result<(), NoMemory>
    ensures { OnOk result (draft.new ≡ draft.old
        ++ beside_text kind unused.now (expr_bytes frame.now.prefix.now subs.now expr.now)) }
{
    push_beside_front(kind, unused, draft)?;
    push_expr(expr, frame.prefix, subs, draft)?;
    push_beside_back(unused, draft)
}

/// A condition, and beside it the sublinks that it doesn't use.
pub fn push_condition(
    frame: &Frame,
    subs: &[Bytes],
    condition: &Expr,
    draft: &mut Draft,
) -> Result<(), NoMemory>
    ensures { OnOk result (draft.new ≡ draft.old
        ++ condition_text frame.now.prefix.now subs.now condition.now) }
{
    let unused = unused_by(draft.alloc(), condition, subs)?;
    push_beside(
        frame,
        subs,
        unused.as_slice(),
        Kind::Boolean,
        condition,
        draft,
    )
}

/// WHERE a condition.
pub fn push_where(
    frame: &Frame,
    subs: &[Bytes],
    condition: &Expr,
    draft: &mut Draft,
) -> Result<(), NoMemory>
    ensures { OnOk result (draft.new ≡ draft.old ++ where_text frame.now.prefix.now subs.now condition.now) }
{
    draft.push(b"WHERE ")?;
    push_condition(frame, subs, condition, draft)
}

fn push_expr_item(
    frame: &Frame,
    subs: &[Bytes],
    number: usize,
    item: &Item,
    draft: &mut Draft,
) -> Result<(), NoMemory>
    ensures { OnOk result (draft.new ≡ draft.old
        ++ item_text (called_in frame.now) number (expr_bytes frame.now.prefix.now subs.now item.now.expr)) }
{
    push_comma(number, draft)?;
    push_expr(&item.expr, frame.prefix, subs, draft)?;
    push_as(frame.out, frame.first, number, draft)
}

/// Items from the second on.
fn push_expr_items(
    frame: &Frame,
    subs: &[Bytes],
    items: &[Item],
    draft: &mut Draft,
) -> Result<(), NoMemory>
    ensures { OnOk result (draft.new ≡ draft.old
        ++ expr_items frame.now.prefix.now (called_in frame.now) subs.now 1 items.now) }
{
    for (place, item) in items.iter().enumerate() {
        push_expr_item(frame, subs, place + 1, item, draft)?;
    }
    Ok(())
}

/// What is read nowhere, and beside it sublinks that nothing uses.
fn push_unread_beside(frame: &Frame, unused: &[Bytes], draft: &mut Draft) -> Result<(), NoMemory>
    ensures { OnOk result (draft.new ≡ draft.old
        ++ projected_text frame.now.prefix.now (called_in frame.now) [] unused.now []) }
{
    push_beside_front(Kind::Integer, unused, draft)?;
    draft.push(b"1 ")?;
    push_beside_back(unused, draft)?;
    push_unread(frame.out, b"", 0, draft)
}

/// Items, and beside the first the sublinks that none uses.
fn push_projected(
    frame: &Frame,
    subs: &[Bytes],
    unused: &[Bytes],
    items: &[Item],
    draft: &mut Draft,
) -> Result<(), NoMemory>
    ensures { OnOk result (draft.new ≡ draft.old
        ++ projected_text frame.now.prefix.now (called_in frame.now) subs.now unused.now items.now) }
{
    match items {
        [item, others @ ..] => {
            push_beside(frame, subs, unused, item.kind, &item.expr, draft)?;
            push_as(frame.out, frame.first, 0, draft)?;
            push_expr_items(frame, subs, others, draft)
        }
        [] => push_unread_beside(frame, unused, draft),
    }
}

/// Items, and beside them the sublinks that none uses.
pub fn push_projecting(
    frame: &Frame,
    subs: &[Bytes],
    items: &[Item],
    draft: &mut Draft,
) -> Result<(), NoMemory>
    ensures { OnOk result (draft.new ≡ draft.old
        ++ projecting_text frame.now.prefix.now (called_in frame.now) subs.now items.now) }
{
    let unused = unused_by_items(draft.alloc(), items, subs)?;
    push_projected(frame, subs, unused.as_slice(), items, draft)
}
