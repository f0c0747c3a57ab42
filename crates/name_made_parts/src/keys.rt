//! Keys of ORDER BY among the columns that a query shows.
ghost use Rattle.std.specs.Prelude.{◌≡◌, IfOk, map, position, pred, nat_abs};
ghost use Rattle.std.specs.Option.{option_map_or};
ghost use Rattle.name_meaning.specs.Queries.{is_named, key_of, key_place};
ghost use Rattle.name_seen_parts.specs.Columns.{columns_of};
ghost use Rattle.name_made_parts.specs.Shown.{is_shown_as};

use name_seen_parts::ShownColumn;
use perm_values::{Chars, Key, List, NoMemory};
use sql_tree::{OrderKey, OrderTree};
use std::alloc::Global;

/// The keys, each with the place of the column that it names.
pub fn keys_of(
    alloc: Global,
    columns: &[ShownColumn],
    order: &[OrderTree],
) -> Result<List<Key>, NoMemory>
    ensures { IfOk result (λ keys. keys ≡ map (key_of (columns_of columns.now)) order.now) }
{
    let mut keys = List::new(alloc);
    for tree in order {
        keys.push(key_of(columns, tree))?;
    }
    Ok(keys)
}

fn key_of(columns: &[ShownColumn], tree: &OrderTree) -> Key
    ensures { result ≡ key_of (columns_of columns.now) tree.now }
{
    Key {
        place: key_place(columns, &tree.key),
        descending: tree.descending,
    }
}

fn key_place(columns: &[ShownColumn], key: &OrderKey) -> usize
    ensures { result ≡ key_place (columns_of columns.now) key.now }
{
    match key {
        OrderKey::Named(name) => place_named(columns, name),
        OrderKey::Position(number) => place_at(*number),
    }
}

/// The place of the first column of this name; 0 where there is none.
fn place_named(columns: &[ShownColumn], name: &Chars) -> usize
    ensures { result
        ≡ option_map_or (λ place. place) (position (is_named name.now) (columns_of columns.now)) 0 }
{
    match position_of(columns, name) {
        None => 0,
        Some(place) => place,
    }
}

fn position_of(columns: &[ShownColumn], name: &Chars) -> Option<usize>
    ensures { result ≡ position (is_shown_as name.now) columns.now }
{
    columns.iter().position(|column| *name == column.name)
}

/// The place at a position, which counts from 1.
fn place_at(position: i64) -> usize
    ensures { result ≡ pred (nat_abs position) }
{
    position.unsigned_abs().saturating_sub(1) as usize
}
