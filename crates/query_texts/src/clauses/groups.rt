//! Writes groups: the arguments of aggregates are columns of the query below.
ghost use Rattle.std.specs.Prelude.{◌≡◌, ◌+◌, ◌++◌, OnOk};
ghost use Rattle.query_texts.specs.clauses.Frames.{called_in};
ghost use Rattle.query_texts.specs.clauses.Names.{own};
ghost use Rattle.query_texts.specs.clauses.ClauseTexts.{above_text, aggregate_items, aggregated_text, argument_items, argument_text, below_text, folded_text, group_items, grouped_column, grouped_columns, grouped_text, item_text};
ghost use Rattle.tree_texts.specs.expressions.Words.{reference_text};

use crate::clauses::frame::Frame;
use crate::clauses::lists::{push_as, push_column_items, push_comma, push_unread};
use bag_algebra::{AggFn, Aggr, Expr};
use perm_values::NoMemory;
use tree_texts::{Draft, behind, push_expr};

fn push_grouped_column(prefix: &[u8], number: usize, draft: &mut Draft) -> Result<(), NoMemory>
    ensures { OnOk result (draft.new ≡ draft.old ++ grouped_column prefix.now number) }
{
    let place = behind(number, 1)?;
    push_comma(number, draft)?;
    draft.push_column(prefix, 0, place)
}

fn push_grouped_columns(prefix: &[u8], count: usize, draft: &mut Draft) -> Result<(), NoMemory>
    ensures { OnOk result (draft.new ≡ draft.old ++ grouped_columns prefix.now count) }
{
    for number in 0..count {
        push_grouped_column(prefix, number, draft)?;
    }
    Ok(())
}

/// GROUP BY so many of the first columns.
pub fn push_grouped(prefix: &[u8], count: usize, draft: &mut Draft) -> Result<(), NoMemory>
    ensures { OnOk result (draft.new ≡ draft.old ++ grouped_text prefix.now count) }
{
    draft.push_unless_none(count, b"GROUP BY ")?;
    push_grouped_columns(prefix, count, draft)
}

// ---- below

fn push_group_item(
    prefix: &[u8],
    number: usize,
    place: usize,
    draft: &mut Draft,
) -> Result<(), NoMemory>
    ensures { OnOk result (draft.new ≡ draft.old
        ++ item_text (own prefix.now) number (reference_text prefix.now 0 (place + 1))) }
{
    let column = behind(place, 1)?;
    push_comma(number, draft)?;
    draft.push_column(prefix, 0, column)?;
    push_as(prefix, 1, number, draft)
}

fn push_group_items(prefix: &[u8], groups: &[usize], draft: &mut Draft) -> Result<(), NoMemory>
    ensures { OnOk result (draft.new ≡ draft.old ++ group_items prefix.now 0 groups.now) }
{
    for (number, place) in groups.iter().enumerate() {
        push_group_item(prefix, number, *place, draft)?;
    }
    Ok(())
}

fn push_argument(prefix: &[u8], argument: &Option<Expr>, draft: &mut Draft) -> Result<(), NoMemory>
    ensures { OnOk result (draft.new ≡ draft.old ++ argument_text prefix.now argument.now) }
{
    match argument {
        None => draft.push(b"1 "),
        Some(part) => push_expr(part, prefix, &[], draft),
    }
}

fn push_argument_item(
    prefix: &[u8],
    number: usize,
    aggregate: &Aggr,
    draft: &mut Draft,
) -> Result<(), NoMemory>
    ensures { OnOk result (draft.new ≡ draft.old
        ++ item_text (own prefix.now) number (argument_text prefix.now aggregate.now.argument)) }
{
    push_comma(number, draft)?;
    push_argument(prefix, &aggregate.argument, draft)?;
    push_as(prefix, 1, number, draft)
}

/// The arguments of aggregates, as items from a number on.
fn push_argument_items(
    prefix: &[u8],
    from: usize,
    aggregates: &[Aggr],
    draft: &mut Draft,
) -> Result<(), NoMemory>
    ensures { OnOk result (draft.new ≡ draft.old ++ argument_items prefix.now from aggregates.now) }
{
    for (place, aggregate) in aggregates.iter().enumerate() {
        let number = behind(from, place)?;
        push_argument_item(prefix, number, aggregate, draft)?;
    }
    Ok(())
}

/// What is grouped: the columns that are, and the arguments.
pub fn push_below(
    prefix: &[u8],
    groups: &[usize],
    aggregates: &[Aggr],
    draft: &mut Draft,
) -> Result<(), NoMemory>
    ensures { OnOk result (draft.new ≡ draft.old ++ below_text prefix.now groups.now aggregates.now) }
{
    let count = behind(groups.len(), aggregates.len())?;
    draft.push(b"SELECT ")?;
    push_unread(prefix, b"1 ", count, draft)?;
    push_group_items(prefix, groups, draft)?;
    push_argument_items(prefix, groups.len(), aggregates, draft)
}

// ---- above

fn push_folded(word: &[u8], prefix: &[u8], number: usize, draft: &mut Draft) -> Result<(), NoMemory>
    ensures { OnOk result (draft.new ≡ draft.old
        ++ folded_text word.now (reference_text prefix.now 0 number)) }
{
    draft.push(word)?;
    draft.push_column(prefix, 0, number)?;
    draft.push(b") ")
}

/// An aggregate of a column.
fn push_aggregated(
    function: AggFn,
    prefix: &[u8],
    number: usize,
    draft: &mut Draft,
) -> Result<(), NoMemory>
    ensures { OnOk result (draft.new ≡ draft.old
        ++ aggregated_text function (reference_text prefix.now 0 number)) }
{
    match function {
        AggFn::CountRows => draft.push(b"COUNT ( * ) "),
        AggFn::Count => push_folded(b"COUNT ( ", prefix, number, draft),
        AggFn::CountDistinct => push_folded(b"COUNT ( DISTINCT ", prefix, number, draft),
        AggFn::Sum => push_folded(b"SUM ( ", prefix, number, draft),
        AggFn::Min => push_folded(b"MIN ( ", prefix, number, draft),
        AggFn::Max => push_folded(b"MAX ( ", prefix, number, draft),
    }
}

fn push_aggregate_item(
    frame: &Frame,
    number: usize,
    function: AggFn,
    draft: &mut Draft,
) -> Result<(), NoMemory>
    ensures { OnOk result (draft.new ≡ draft.old ++ item_text (called_in frame.now) number
        (aggregated_text function (reference_text frame.now.prefix.now 0 (number + 1)))) }
{
    let column = behind(number, 1)?;
    push_comma(number, draft)?;
    push_aggregated(function, frame.prefix, column, draft)?;
    push_as(frame.out, frame.first, number, draft)
}

/// Aggregates as items from a number on.
fn push_aggregate_items(
    frame: &Frame,
    from: usize,
    aggregates: &[Aggr],
    draft: &mut Draft,
) -> Result<(), NoMemory>
    ensures { OnOk result (draft.new ≡ draft.old
        ++ aggregate_items frame.now.prefix.now (called_in frame.now) from aggregates.now) }
{
    for (place, aggregate) in aggregates.iter().enumerate() {
        let number = behind(from, place)?;
        push_aggregate_item(frame, number, aggregate.function, draft)?;
    }
    Ok(())
}

/// What comes of the groups.
pub fn push_above(
    frame: &Frame,
    groups: usize,
    aggregates: &[Aggr],
    draft: &mut Draft,
) -> Result<(), NoMemory>
    ensures { OnOk result (draft.new ≡ draft.old
        ++ above_text frame.now.prefix.now (called_in frame.now) groups aggregates.now) }
{
    let count = behind(groups, aggregates.len())?;
    draft.push(b"SELECT ")?;
    push_unread(frame.out, b"COUNT ( * ) ", count, draft)?;
    push_column_items(frame, groups, draft)?;
    push_aggregate_items(frame, groups, aggregates, draft)
}
