//! Keys of ORDER BY.
ghost use Rattle.std.specs.Prelude.{◌≡◌, Some, count_by, not};
ghost use Rattle.name_meaning.specs.Meanings.{broken_if};
ghost use Rattle.name_seen_parts.specs.Seen.{first_or};
ghost use Rattle.name_meaning.specs.Queries.{is_named, is_position, key_break, keys_breaks};
ghost use Rattle.name_meaning.specs.declared.rule.Rule.TheVariants as rule;
ghost use Rattle.name_seen_parts.specs.Columns.{columns_of};

use crate::clauses::column::ShownColumn;
use crate::clauses::counted::count_break;
use name_meaning::{Break, Rule};
use perm_values::Chars;
use sql_tree::{OrderKey, OrderTree};

/// The first key that is no output column, or more than one.
pub fn keys_break(columns: &[ShownColumn], order: &[OrderTree]) -> Result<(), Break>
    ensures { result ≡ first_or (keys_breaks (Some (columns_of columns.now)) order.now) tt }
{
    for tree in order {
        match key_break(columns, tree) {
            Ok(()) => {}
            Err(first) => return Err(first),
        }
    }
    Ok(())
}

fn key_break(columns: &[ShownColumn], tree: &OrderTree) -> Result<(), Break>
    ensures { result ≡ first_or (key_break (columns_of columns.now) tree.now) tt }
{
    match &tree.key {
        OrderKey::Named(name) => count_break(count_named(columns, name), tree.at),
        OrderKey::Position(place) => position_break(*place, columns.len(), tree.at),
    }
}

fn count_named(columns: &[ShownColumn], name: &Chars) -> usize
    ensures { result ≡ count_by (is_named name.now) (columns_of columns.now) }
{
    columns.iter().filter(|column| *name == column.name).count()
}

fn position_break(place: i64, width: usize, at: usize) -> Result<(), Break>
    ensures { result ≡ first_or (broken_if (not (is_position place width)) rule.UnknownColumn at) tt }
{
    if !is_position(place, width) {
        return Err(Break {
            rule: Rule::UnknownColumn,
            at,
        });
    }
    Ok(())
}

/// Whether there is such an output column; positions count from 1.
fn is_position(place: i64, width: usize) -> bool
    ensures { result ≡ is_position place width }
{
    match usize::try_from(place) {
        Ok(number) => number > 0 && number <= width,
        Err(_) => false,
    }
}
