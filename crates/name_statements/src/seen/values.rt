//! The values of INSERT.
ghost use Rattle.std.specs.Prelude.{◌≡◌, [], List as Sights, flat_map, length};
ghost use Rattle.name_seen_parts.specs.Told.{Tells};
ghost use Rattle.name_seen_parts.specs.Seen.{first_or, seen};
ghost use Rattle.name_seen_parts.specs.Standing.{standing_in, surroundings};
ghost use Rattle.name_meaning.specs.Meanings.{Meant, means_at};
ghost use Rattle.name_meaning.specs.Statements as words;
ghost use Rattle.name_meaning.specs.Trees.{part_of};
ghost use Rattle.name_meaning.specs.declared.scope.Scope.{Scope as Sight};
ghost use Rattle.perm_catalog.specs.Columns.{column_kinds};
ghost use Rattle.perm_catalog.specs.Sound.{IsSound};

use name_meaning::{Break, Rule};
use name_seen::kind_of;
use name_seen_parts::{Here, Refusal, Scopes, Standing, unites};
use perm_catalog::{Catalog, Column};
use perm_values::Kind;
use sql_tree::{ExprTree, ValuesRow};
use std::alloc::Global;

/// The first row that has another number of values than the table has columns, or the first break of a value before it.
pub fn rows_break(
    alloc: Global,
    catalog: &Catalog,
    columns: &[Column],
    rows: &[ValuesRow],
) -> Result<(), Refusal>
    requires { IsSound catalog.now }
    ensures { Tells (first_or
        (flat_map (words.row_breaks catalog.now (column_kinds columns.now)) rows.now) tt) result }
{
    let outermost = Scopes::Outermost;
    let here = Here {
        alloc,
        catalog: &*catalog,
        scopes: &outermost,
        standing: alone(),
    };
    for row in rows {
        row_break(&here, columns, row)?;
    }
    Ok(())
}

fn row_break(here: &Here, columns: &[Column], row: &ValuesRow) -> Result<(), Refusal>
    requires sound { IsSound here.now.catalog.now }
    requires alone { surroundings here.now ≡ words.bare [] }
    ensures { Tells (first_or
        (words.row_breaks here.now.catalog.now (column_kinds columns.now) row.now) tt) result }
{
    let values = row.values.as_slice();
    if values.len() != columns.len() {
        let at = row.at;
        return Err(Refusal::Break(Break {
            rule: Rule::UnfitWidth,
            at,
        }));
    }
    values_break(here, columns, values)
}

fn values_break(here: &Here, columns: &[Column], values: &[ExprTree]) -> Result<(), Refusal>
    requires sound { IsSound here.now.catalog.now }
    requires alone { surroundings here.now ≡ words.bare [] }
    requires even { length values.now ≡ length columns.now }
    ensures { Tells (first_or
        (words.values_breaks here.now.catalog.now (column_kinds columns.now) values.now) tt) result }
{
    for at in 0..values.len() {
        match value_break(here, &columns[at], &values[at]) {
            Ok(()) => {}
            Err(refusal) => return Err(refusal),
        }
    }
    Ok(())
}

/// The first break of a value of this column.
fn value_break(here: &Here, column: &Column, tree: &ExprTree) -> Result<(), Refusal>
    requires { IsSound here.now.catalog.now }
    ensures { Tells (first_or (words.value_breaks column.now.kind tree.now.at
        (means_at (part_of here.now.catalog.now tree.now) (surroundings here.now))) tt) result }
{
    value_over(column.kind, tree.at, kind_of(tree, here))
}

/// That a value at this offset, whose kind was answered or refused, breaks a rule or doesn't fit a column of this kind.
fn value_over(kind: Kind, at: usize, answer: Result<Option<Kind>, Refusal>) -> Result<(), Refusal>
    ensures { (meant : Meant) → Tells (seen meant) answer
        → Tells (first_or (words.value_breaks kind at meant) tt) result }
{
    match answer {
        Ok(found) => {
            if !unites(Some(kind), found) {
                return Err(Refusal::Break(Break {
                    rule: Rule::UnfitKind,
                    at,
                }));
            }
            Ok(())
        }
        Err(refusal) => Err(refusal),
    }
}

/// How an expression stands outside a query: neither an aggregate nor a sublink may stand there.
pub fn alone() -> Standing
    ensures { (scopes : Sights Sight) → standing_in scopes result ≡ words.bare scopes }
{
    Standing {
        aggregates: false,
        sublinks: false,
        argument: false,
    }
}
