ghost use Rattle.std.specs.Prelude.{◌≡◌, ◌&&◌};
ghost use Rattle.std.specs.List.{list_any};
ghost use Rattle.name_meaning.specs.Items.{columns_meant, is_ungrouped, star_meant, table_star_meant};
ghost use Rattle.name_seen_parts.specs.Seen.{first_or};
ghost use Rattle.name_seen_parts.specs.Stars.{is_in_item, is_of, columns_of};

use crate::named::item_number;
use crate::scopes::place_among;
use name_meaning::{Break, Rule, Scope, ScopeColumn};
use sql_tree::Name;

/// That `*` at this offset stands for no columns, or in a grouped core for one that is not grouped.
pub fn star(has_from: bool, scope: &Scope, at: usize) -> Result<(), Break>
    ensures { result ≡ first_or (star_meant has_from scope.now at).breaks tt }
{
    if !has_from {
        return Err(Break {
            rule: Rule::UnknownColumn,
            at,
        });
    }
    all_grouped(scope, None, at)
}

/// That no item has the name before `.*`, or in a grouped core a column of it is not grouped.
pub fn table_star(scope: &Scope, table: &Name) -> Result<(), Break>
    ensures { result ≡ first_or (table_star_meant scope.now table.now).breaks tt }
{
    match item_number(scope, &table.text) {
        None => Err(Break {
            rule: Rule::UnknownColumn,
            at: table.at,
        }),
        Some(number) => all_grouped(scope, Some(number), table.at),
    }
}

/// That one of these columns is not grouped, those of one item or of all.
fn all_grouped(scope: &Scope, item: Option<usize>, at: usize) -> Result<(), Break>
    ensures { result ≡ first_or (columns_meant scope.now at (columns_of item scope.now)).breaks tt }
{
    if is_any_left_out(scope, item) {
        return Err(Break {
            rule: Rule::UngroupedColumn,
            at,
        });
    }
    Ok(())
}

fn is_any_left_out(scope: &Scope, item: Option<usize>) -> bool
    ensures { result ≡ list_any (is_ungrouped scope.now) (columns_of item scope.now) }
{
    let columns = scope.columns.as_slice();
    let mut left_out = false;
    for place in 0..columns.len() {
        let column = &columns[place];
        left_out |= is_left_out(scope, item, column, place);
    }
    left_out
}

fn is_left_out(scope: &Scope, item: Option<usize>, column: &ScopeColumn, place: usize) -> bool
    ensures { result ≡ (is_in_item item (place, column.now) && is_ungrouped scope.now (place, column.now)) }
{
    is_of(item, column) && place_among(scope, false, place).is_none()
}

/// Whether the column is one of the item, if there is one.
pub fn is_of(item: Option<usize>, column: &ScopeColumn) -> bool
    ensures { result ≡ is_of item column.now }
{
    match item {
        None => true,
        Some(number) => number == column.item,
    }
}
