//! Writes SELECT lists, and keys.
ghost use Rattle.std.specs.Prelude.{◌≡◌, ◌+◌, ◌++◌, IfOk, OnOk};
ghost use Rattle.query_texts.specs.clauses.Frames.{called_in};
ghost use Rattle.query_texts.specs.clauses.Keys.{all_keys, is_key, unless_key};
ghost use Rattle.query_texts.specs.clauses.Names.{names_of, naming};
ghost use Rattle.query_texts.specs.clauses.ClauseTexts.{as_text, called_item, called_items, column_item, column_items, columns_text, comma, item_text, key_text, key_texts, limited_text, listed_text, named_items, order_text, ordered_text, table_text, unread_text};
ghost use Rattle.tree_texts.specs.expressions.Words.{name_text};

use crate::clauses::frame::Frame;
use crate::clauses::tables::table_of;
use crate::clauses::words::direction_text;
use perm_values::{Chars, Key, List, NoMemory};
use std::alloc::Global;
use tree_texts::{Draft, behind};

/// What stands before the item of a number.
pub(crate) fn push_comma(number: usize, draft: &mut Draft) -> Result<(), NoMemory>
    ensures { OnOk result (draft.new ≡ draft.old ++ comma number) }
{
    if number == 0 {
        Ok(())
    } else {
        draft.push(b", ")
    }
}

/// AS and the name of the item of a number.
pub(crate) fn push_as(
    out: &[u8],
    first: usize,
    number: usize,
    draft: &mut Draft,
) -> Result<(), NoMemory>
    ensures { OnOk result (draft.new ≡ draft.old ++ as_text (naming out.now first) number) }
{
    let place = behind(first, number)?;
    draft.push(b"AS ")?;
    draft.push_column(out, 0, place)
}

/// The one item of a list that has no other.
pub fn push_unread(out: &[u8], word: &[u8], count: usize, draft: &mut Draft) -> Result<(), NoMemory>
    ensures { OnOk result (draft.new ≡ draft.old ++ unread_text out.now word.now count) }
{
    if count == 0 {
        draft.push(word)?;
        draft.push(b"AS ")?;
        draft.push_column(out, 0, 0)
    } else {
        Ok(())
    }
}

fn push_column_item(frame: &Frame, number: usize, draft: &mut Draft) -> Result<(), NoMemory>
    ensures { OnOk result (draft.new ≡ draft.old
        ++ column_item frame.now.prefix.now (called_in frame.now) number) }
{
    let place = behind(number, 1)?;
    push_comma(number, draft)?;
    draft.push_column(frame.prefix, 0, place)?;
    push_as(frame.out, frame.first, number, draft)
}

/// So many of the first columns.
pub(crate) fn push_column_items(
    frame: &Frame,
    count: usize,
    draft: &mut Draft,
) -> Result<(), NoMemory>
    ensures { OnOk result (draft.new ≡ draft.old
        ++ column_items frame.now.prefix.now (called_in frame.now) count) }
{
    for number in 0..count {
        push_column_item(frame, number, draft)?;
    }
    Ok(())
}

/// All columns, of which there are so many.
pub fn push_columns(frame: &Frame, count: usize, draft: &mut Draft) -> Result<(), NoMemory>
    ensures { OnOk result (draft.new ≡ draft.old
        ++ columns_text frame.now.prefix.now (called_in frame.now) count) }
{
    push_unread(frame.out, b"1 ", count, draft)?;
    push_column_items(frame, count, draft)
}

// ---- tables

fn push_named_item(
    frame: &Frame,
    number: usize,
    name: &Chars,
    draft: &mut Draft,
) -> Result<(), NoMemory>
    ensures { OnOk result (draft.new ≡ draft.old
        ++ item_text (called_in frame.now) number (name_text name.now)) }
{
    push_comma(number, draft)?;
    draft.push_name(name.bytes())?;
    push_as(frame.out, frame.first, number, draft)
}

fn push_named_items(frame: &Frame, names: &[Chars], draft: &mut Draft) -> Result<(), NoMemory>
    ensures { OnOk result (draft.new ≡ draft.old ++ named_items (called_in frame.now) 0 names.now) }
{
    for (number, name) in names.iter().enumerate() {
        push_named_item(frame, number, name, draft)?;
    }
    Ok(())
}

fn push_listed(
    frame: &Frame,
    name: &[u8],
    columns: &[Chars],
    draft: &mut Draft,
) -> Result<(), NoMemory>
    ensures { OnOk result (draft.new ≡ draft.old ++ listed_text (called_in frame.now) name.now columns.now) }
{
    push_unread(frame.out, b"1 ", columns.len(), draft)?;
    push_named_items(frame, columns, draft)?;
    draft.push(b"FROM ")?;
    draft.push_name(name)
}

/// The table of an identity.
pub fn push_table(frame: &Frame, id: u64, draft: &mut Draft) -> Result<(), NoMemory>
    ensures { OnOk result (draft.new ≡ draft.old
        ++ table_text (called_in frame.now) (names_of frame.now.tables.now id)) }
{
    match table_of(frame.tables, id) {
        Some(table) => { push_listed(frame, table.name.bytes(), table.columns.as_slice(), draft) }
        None => push_listed(frame, b"", &[], draft),
    }
}

// ---- keys

fn push_key(number: usize, key: &Key, draft: &mut Draft) -> Result<(), NoMemory>
    ensures { OnOk result (draft.new ≡ draft.old ++ key_text number key.now) }
{
    let position = behind(key.place, 1)?;
    push_comma(number, draft)?;
    draft.push_number(position as u64)?;
    draft.push(direction_text(key.descending))
}

fn push_keys(keys: &[Key], draft: &mut Draft) -> Result<(), NoMemory>
    ensures { OnOk result (draft.new ≡ draft.old ++ key_texts 0 keys.now) }
{
    for (number, key) in keys.iter().enumerate() {
        push_key(number, key, draft)?;
    }
    Ok(())
}

/// ORDER BY and keys by their positions; nothing where there is no key.
pub fn push_ordered(keys: &[Key], draft: &mut Draft) -> Result<(), NoMemory>
    ensures { OnOk result (draft.new ≡ draft.old ++ ordered_text keys.now) }
{
    draft.push_unless_none(keys.len(), b"ORDER BY ")?;
    push_keys(keys, draft)
}

/// Whether one of the keys is the column at a place.
fn is_key(keys: &[Key], place: usize) -> bool
    ensures { result ≡ is_key keys.now place }
{
    for key in keys {
        if key.place == place {
            return true;
        }
    }
    false
}

/// Adds the column at a place unless one of the keys is it.
fn push_unless_key(all: &mut List<Key>, keys: &[Key], place: usize) -> Result<(), NoMemory>
    ensures { OnOk result (all.new ≡ all.old ++ unless_key keys.now place) }
{
    if is_key(keys, place) {
        Ok(())
    } else {
        all.push(Key {
            place,
            descending: false,
        })
    }
}

/// The keys, and behind them all other columns, of so many.
fn all_keys(alloc: Global, keys: &[Key], count: usize) -> Result<List<Key>, NoMemory>
    ensures { IfOk result (λ all. all ≡ all_keys count keys.now) }
{
    let mut all = List::copy_of(alloc, keys)?;
    for place in 0..count {
        push_unless_key(&mut all, keys, place)?;
    }
    Ok(all)
}

/// The order that a LIMIT takes rows in, of so many columns.
fn push_order(keys: &[Key], count: usize, draft: &mut Draft) -> Result<(), NoMemory>
    ensures { OnOk result (draft.new ≡ draft.old ++ order_text keys.now count) }
{
    let all = all_keys(draft.alloc(), keys, count)?;
    push_ordered(all.as_slice(), draft)
}

/// The keys of a LIMIT, the columns that are no key, and how many rows stay.
pub fn push_limit(
    keys: &[Key],
    columns: usize,
    count: u64,
    draft: &mut Draft,
) -> Result<(), NoMemory>
    ensures { OnOk result (draft.new ≡ draft.old ++ limited_text keys.now columns count) }
{
    push_order(keys, columns, draft)?;
    draft.push(b"LIMIT ")?;
    draft.push_number(count)
}

// ---- answers

fn push_called_item(number: usize, name: &Chars, draft: &mut Draft) -> Result<(), NoMemory>
    ensures { OnOk result (draft.new ≡ draft.old ++ called_item number name.now) }
{
    let place = behind(number, 1)?;
    push_comma(number, draft)?;
    draft.push_column(b"c", 0, place)?;
    draft.push(b"AS ")?;
    draft.push_name(name.bytes())
}

/// The columns of an answer by their names.
pub fn push_called(names: &[Chars], draft: &mut Draft) -> Result<(), NoMemory>
    ensures { OnOk result (draft.new ≡ draft.old ++ called_items 0 names.now) }
{
    for (number, name) in names.iter().enumerate() {
        push_called_item(number, name, draft)?;
    }
    Ok(())
}
