//! The columns for which a star of a SELECT list stands.
ghost use Rattle.std.specs.Prelude.{◌≡◌, ℕ, Bool, List, ◌∷◌, ◌++◌, [], cond, OnOk, map};
ghost use Rattle.std.specs.Option.{option_map_or};
ghost use Rattle.bag_algebra.specs.declared.expr.Expr.TheVariants.{Col};
ghost use Rattle.perm_values.specs.declared.kind.Kind.{Kind};
ghost use Rattle.name_meaning.specs.Items.{column_item, star_meant, table_star_meant};
ghost use Rattle.name_meaning.specs.Sublinks.{null_at};
ghost use Rattle.name_meaning.specs.nodes.Listed.{MakesItems};
ghost use Rattle.name_meaning.specs.declared.nodes.within.Within.{Within};
ghost use Rattle.name_seen_parts.specs.Stars.{columns_of, is_of};

use bag_algebra::{Expr, Item};
use name_meaning::{Scope, ScopeColumn, null_at};
use name_seen_parts::{is_of, item_number, place_among};
use perm_values::{Kind, List, NoMemory};
use sql_tree::Name;

/// The columns of all items of FROM, behind the columns so far.
pub fn add_star(scope: &Scope, items: &mut List<Item>) -> Result<(), NoMemory>
    ensures { OnOk result ((may_link has_from : Bool) (at : ℕ) (wanted : List Kind) (w : Within) →
        MakesItems may_link (star_meant has_from scope.now at ∷ []) wanted items.old items.new w w) }
{
    add_columns(scope, None, items)
}

/// The columns of one item of FROM, behind the columns so far.
pub fn add_table_star(scope: &Scope, table: &Name, items: &mut List<Item>) -> Result<(), NoMemory>
    ensures { OnOk result ((may_link : Bool) (wanted : List Kind) (w : Within) →
        MakesItems may_link (table_star_meant scope.now table.now ∷ []) wanted items.old items.new w w) }
{
    match item_number(scope, &table.text) {
        None => Ok(()),
        Some(number) => add_columns(scope, Some(number), items),
    }
}

/// The columns for which a star stands, those of one item or of all, behind the items so far.
fn add_columns(scope: &Scope, item: Option<usize>, items: &mut List<Item>) -> Result<(), NoMemory>
    ensures { OnOk result (items.new ≡ items.old ++ map (column_item scope.now) (columns_of item scope.now)) }
{
    let columns = scope.columns.as_slice();
    for place in 0..columns.len() {
        add_column(scope, item, &columns[place], place, items)?;
    }
    Ok(())
}

/// The column, if it is one of the item or there is none.
fn add_column(
    scope: &Scope,
    item: Option<usize>,
    column: &ScopeColumn,
    place: usize,
    items: &mut List<Item>,
) -> Result<(), NoMemory>
    ensures { OnOk result (items.new ≡ items.old ++ map (column_item scope.now)
        (cond (is_of item column.now) ((place, column.now) ∷ []) [])) }
{
    if !is_of(item, column) {
        return Ok(());
    }
    items.push(column_item(scope, column, place))?;
    Ok(())
}

/// The column where it stands in the core's rows.
fn column_item(scope: &Scope, column: &ScopeColumn, place: usize) -> Item
    ensures { result ≡ column_item scope.now (place, column.now) }
{
    Item {
        expr: at_place(place_among(scope, false, place), column.kind),
        kind: column.kind,
    }
}

/// The column at a place of the core's rows; one that stands nowhere is of no account.
fn at_place(place: Option<usize>, kind: Kind) -> Expr
    ensures { result ≡ option_map_or (Col 0) place (null_at kind) }
{
    match place {
        None => null_at(kind),
        Some(place) => Expr::Col { level: 0, place },
    }
}
