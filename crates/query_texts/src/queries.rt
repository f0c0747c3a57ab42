//! Writes queries: one SELECT for a block of SQL.
ghost use Rattle.std.specs.Prelude.{◌≡◌, ◌+◌, ◌++◌, IfOk, OnOk};
ghost use Rattle.bag_algebra.specs.Kinds.{width_of};
ghost use Rattle.query_texts.specs.clauses.Chains.{is_chained};
ghost use Rattle.query_texts.specs.clauses.ClauseTexts.{beside_joined, beside_lateral, columns_text, groups_text};
ghost use Rattle.query_texts.specs.clauses.Frames.{called_in};
ghost use Rattle.query_texts.specs.clauses.Names.{deeper, naming};
ghost use Rattle.query_texts.specs.QueryTexts.{answer_bytes, apart_unless, query_bytes, sub_text, subs_texts, written};
ghost use Rattle.query_texts.specs.built.Parts.{block_part, over_bytes, select_part};

use crate::clauses::{
    Frame, TableNames, asked_back, deeper, join_text, lateral_text, push_above, push_asking,
    push_below, push_called, push_columns, push_condition, push_grouped, push_lateral_source,
    push_limit, push_ordered, push_projecting, push_set, push_source, push_table, push_unread,
    push_where,
};
use crate::shapes::{is_block, is_chain, is_chained, is_select};
use bag_algebra::{Aggr, Answer, JoinKind, Query, Sublink, exact_width};
use perm_values::{Bytes, List, NoMemory};
use std::alloc::Global;
use tree_texts::{Draft, behind};

/// Writes a query in a frame.
#[cycle(push_query)]
fn push_query(frame: &Frame, query: &Query, draft: &mut Draft) -> Result<(), NoMemory>
    ensures { OnOk result (draft.new ≡ draft.old
        ++ query_bytes frame.now.tables.now frame.now.prefix.now (called_in frame.now) query.now) }
{
    match query {
        Query::Table { .. } => {
            draft.push(b"SELECT ")?;
            push_part(frame, query, draft)
        }
        Query::Single => {
            draft.push(b"SELECT ")?;
            push_part(frame, query, draft)
        }
        Query::Base { input, .. } => push_query(frame, input.get(), draft),
        Query::Filter { .. } => {
            draft.push(b"SELECT ")?;
            push_part(frame, query, draft)
        }
        Query::Project { .. } => {
            draft.push(b"SELECT ")?;
            push_part(frame, query, draft)
        }
        Query::Join { .. } => {
            draft.push(b"SELECT ")?;
            push_part(frame, query, draft)
        }
        Query::Apply { .. } => {
            draft.push(b"SELECT ")?;
            push_part(frame, query, draft)
        }
        Query::Union { all, left, right } => {
            draft.push(b"SELECT ")?;
            push_listed(frame, left.get(), draft)?;
            push_set(b"UNION ", *all, draft)?;
            draft.push(b"SELECT ")?;
            push_listed(frame, right.get(), draft)
        }
        Query::Intersect { all, left, right } => {
            draft.push(b"SELECT ")?;
            push_listed(frame, left.get(), draft)?;
            push_set(b"INTERSECT ", *all, draft)?;
            draft.push(b"SELECT ")?;
            push_listed(frame, right.get(), draft)
        }
        Query::Except { all, left, right } => {
            draft.push(b"SELECT ")?;
            push_listed(frame, left.get(), draft)?;
            push_set(b"EXCEPT ", *all, draft)?;
            draft.push(b"SELECT ")?;
            push_listed(frame, right.get(), draft)
        }
        Query::Distinct { input } => {
            draft.push(b"SELECT DISTINCT ")?;
            push_listed(frame, input.get(), draft)
        }
        Query::Aggregate {
            input,
            groups,
            aggregates,
        } => push_groups(
            frame,
            input.get(),
            groups.as_slice(),
            aggregates.as_slice(),
            draft,
        ),
        Query::Limit { input, keys, count } => {
            let columns = exact_width(input.get())?;
            draft.push(b"SELECT ")?;
            push_listed(frame, input.get(), draft)?;
            push_limit(keys.as_slice(), columns, *count, draft)
        }
        Query::Prov { input } => push_query(frame, input.get(), draft),
    }
}

/// What stands behind the word of a query that is one SELECT, and nothing of any other.
#[cycle(push_query)]
fn push_part(frame: &Frame, query: &Query, draft: &mut Draft) -> Result<(), NoMemory>
    ensures { OnOk result (draft.new ≡ draft.old
        ++ select_part frame.now.tables.now frame.now.prefix.now (called_in frame.now) query.now) }
{
    match query {
        Query::Table { id, .. } => push_table(frame, *id, draft),
        Query::Single => push_unread(frame.out, b"1 ", 0, draft),
        Query::Base { .. } => Ok(()),
        Query::Filter { .. } => push_all(frame, query, draft),
        Query::Project { input, items, subs } => {
            let texts = sub_texts(frame, subs.as_slice(), draft.alloc())?;
            push_projecting(frame, texts.as_slice(), items.as_slice(), draft)?;
            push_block(frame, input.get(), draft)
        }
        Query::Join { .. } => push_all(frame, query, draft),
        Query::Apply { .. } => push_all(frame, query, draft),
        Query::Union { .. } => Ok(()),
        Query::Intersect { .. } => Ok(()),
        Query::Except { .. } => Ok(()),
        Query::Distinct { .. } => Ok(()),
        Query::Aggregate { .. } => Ok(()),
        Query::Limit { .. } => Ok(()),
        Query::Prov { .. } => Ok(()),
    }
}

/// All columns of a query that is written as FROM and WHERE, and these.
#[cycle(push_query)]
fn push_all(frame: &Frame, query: &Query, draft: &mut Draft) -> Result<(), NoMemory>
    ensures { OnOk result (draft.new ≡ draft.old
        ++ (columns_text frame.now.prefix.now (called_in frame.now) (width_of query.now)
        ++ block_part frame.now.tables.now frame.now.prefix.now query.now)) }
{
    let count = exact_width(query)?;
    push_columns(frame, count, draft)?;
    push_bare(frame, query, draft)
}

/// FROM and WHERE of a query that is written as these, and nothing of any other.
#[cycle(push_query)]
fn push_bare(frame: &Frame, query: &Query, draft: &mut Draft) -> Result<(), NoMemory>
    ensures { OnOk result (draft.new ≡ draft.old
        ++ block_part frame.now.tables.now frame.now.prefix.now query.now) }
{
    match query {
        Query::Filter {
            input,
            condition,
            subs,
        } => {
            let texts = sub_texts(frame, subs.as_slice(), draft.alloc())?;
            push_from(frame, input.get(), draft)?;
            push_where(frame, texts.as_slice(), condition, draft)
        }
        Query::Join {
            kind,
            left,
            right,
            condition,
            subs,
        } => {
            let texts = sub_texts(frame, subs.as_slice(), draft.alloc())?;
            let before = exact_width(left.get())?;
            push_left(frame, *kind, left.get(), draft)?;
            push_joined(frame, *kind, before, right.get(), draft)?;
            push_condition(frame, texts.as_slice(), condition, draft)
        }
        Query::Apply { kind, left, right } => {
            let before = exact_width(left.get())?;
            push_from(frame, left.get(), draft)?;
            push_lateral(frame, *kind, before, right.get(), draft)
        }
        Query::Table { .. } => Ok(()),
        Query::Single => Ok(()),
        Query::Base { .. } => Ok(()),
        Query::Project { .. } => Ok(()),
        Query::Union { .. } => Ok(()),
        Query::Intersect { .. } => Ok(()),
        Query::Except { .. } => Ok(()),
        Query::Distinct { .. } => Ok(()),
        Query::Aggregate { .. } => Ok(()),
        Query::Limit { .. } => Ok(()),
        Query::Prov { .. } => Ok(()),
    }
}

/// FROM and WHERE that give the columns of a query.
#[cycle(push_query)]
fn push_block(frame: &Frame, query: &Query, draft: &mut Draft) -> Result<(), NoMemory>
    ensures { OnOk result (draft.new ≡ draft.old
        ++ (written frame.now.tables.now frame.now.prefix.now query.now).block) }
{
    if is_block(query) {
        push_bare(frame, query, draft)
    } else {
        push_over(frame, query, draft)
    }
}

/// FROM that gives the columns of a query, and that joins may follow.
#[cycle(push_query)]
fn push_from(frame: &Frame, query: &Query, draft: &mut Draft) -> Result<(), NoMemory>
    ensures { OnOk result (draft.new ≡ draft.old
        ++ (written frame.now.tables.now frame.now.prefix.now query.now).from) }
{
    if is_chain(query) {
        push_bare(frame, query, draft)
    } else {
        push_over(frame, query, draft)
    }
}

/// FROM on the left of a join.
#[cycle(push_query)]
fn push_left(frame: &Frame, kind: JoinKind, left: &Query, draft: &mut Draft) -> Result<(), NoMemory>
    ensures { OnOk result (draft.new ≡ draft.old
        ++ (apart_unless frame.now.prefix.now (width_of left.now) (is_chained kind)
        (written frame.now.tables.now frame.now.prefix.now left.now)).from) }
{
    if is_chained(kind) {
        push_from(frame, left, draft)
    } else {
        push_over(frame, left, draft)
    }
}

/// What stands behind SELECT, in one SELECT that gives the columns of a query.
#[cycle(push_query)]
fn push_listed(frame: &Frame, query: &Query, draft: &mut Draft) -> Result<(), NoMemory>
    ensures { OnOk result (draft.new ≡ draft.old
        ++ (written frame.now.tables.now frame.now.prefix.now query.now).listed (called_in frame.now)) }
{
    if is_select(query) {
        push_part(frame, query, draft)
    } else {
        let count = exact_width(query)?;
        push_columns(frame, count, draft)?;
        push_over(frame, query, draft)
    }
}

/// FROM a query.
#[cycle(push_query)]
fn push_over(frame: &Frame, query: &Query, draft: &mut Draft) -> Result<(), NoMemory>
    ensures { OnOk result (draft.new ≡ draft.old
        ++ over_bytes frame.now.tables.now frame.now.prefix.now query.now) }
{
    draft.push(b"FROM ( ")?;
    let inner = Frame {
        out: frame.prefix,
        first: 1,
        ..*frame
    };
    push_query(&inner, query, draft)?;
    draft.push(b") AS \"t\" ")
}

/// The query on the right of a join, behind so many columns.
#[cycle(push_query)]
fn push_joined(
    frame: &Frame,
    kind: JoinKind,
    before: usize,
    right: &Query,
    draft: &mut Draft,
) -> Result<(), NoMemory>
    ensures { OnOk result (draft.new ≡ draft.old ++ beside_joined kind (before + 1)
        (query_bytes frame.now.tables.now frame.now.prefix.now
        (naming frame.now.prefix.now (before + 1)) right.now)) }
{
    let first = behind(before, 1)?;
    let inner = Frame {
        out: frame.prefix,
        first,
        ..*frame
    };
    draft.push(join_text(kind))?;
    push_query(&inner, right, draft)?;
    push_source(first, draft)?;
    draft.push(b"ON ")
}

/// The query behind LATERAL, behind so many columns.
#[cycle(push_query)]
fn push_lateral(
    frame: &Frame,
    kind: JoinKind,
    before: usize,
    right: &Query,
    draft: &mut Draft,
) -> Result<(), NoMemory>
    ensures { OnOk result (draft.new ≡ draft.old ++ beside_lateral kind (before + 1)
        (query_bytes frame.now.tables.now (deeper frame.now.prefix.now)
        (naming frame.now.prefix.now (before + 1)) right.now)) }
{
    let longer = deeper(draft.alloc(), frame.prefix)?;
    let prefix = longer.as_slice();
    let first = behind(before, 1)?;
    let inner = Frame {
        tables: frame.tables,
        prefix,
        out: frame.prefix,
        first,
    };
    draft.push(lateral_text(kind))?;
    push_query(&inner, right, draft)?;
    push_lateral_source(kind, first, draft)
}

#[cycle(push_query)]
fn push_groups(
    frame: &Frame,
    input: &Query,
    groups: &[usize],
    aggregates: &[Aggr],
    draft: &mut Draft,
) -> Result<(), NoMemory>
    ensures { OnOk result (draft.new ≡ draft.old
        ++ groups_text frame.now.prefix.now (called_in frame.now) groups.now aggregates.now
        (written frame.now.tables.now frame.now.prefix.now input.now).block) }
{
    push_above(frame, groups.len(), aggregates, draft)?;
    draft.push(b"FROM ( ")?;
    push_below(frame.prefix, groups, aggregates, draft)?;
    push_block(frame, input, draft)?;
    draft.push(b") AS \"t\" ")?;
    push_grouped(frame.prefix, groups.len(), draft)
}

/// The text of a sublink.
#[cycle(push_query)]
fn sub_text(frame: &Frame, sub: &Sublink, alloc: Global) -> Result<Bytes, NoMemory>
    ensures { IfOk result (λ text. text ≡ sub_text frame.now.tables.now frame.now.prefix.now sub.now) }
{
    let longer = deeper(alloc, frame.prefix)?;
    let prefix = longer.as_slice();
    let inner = Frame {
        tables: frame.tables,
        prefix,
        out: prefix,
        first: 1,
    };
    let mut text = Draft::new(alloc);
    push_asking(frame.prefix, sub.kind, &sub.tested, &mut text)?;
    push_query(&inner, &sub.query, &mut text)?;
    text.push(asked_back(sub.kind))?;
    Ok(text.into_bytes())
}

/// The texts of the sublinks of a node.
#[cycle(push_query)]
fn sub_texts(frame: &Frame, subs: &[Sublink], alloc: Global) -> Result<List<Bytes>, NoMemory>
    ensures { IfOk result (λ texts. texts ≡ subs_texts frame.now.tables.now frame.now.prefix.now subs.now) }
{
    let mut texts = List::new(alloc);
    for sub in subs {
        texts.push(sub_text(frame, sub, alloc)?)?;
    }
    Ok(texts)
}

fn push_answer(tables: &[TableNames], answer: &Answer, draft: &mut Draft) -> Result<(), NoMemory>
    ensures { OnOk result (draft.new ≡ draft.old
        ++ answer_bytes tables.now answer.now.query answer.now.names answer.now.keys) }
{
    let frame = Frame {
        tables,
        prefix: b"c",
        out: b"c",
        first: 1,
    };
    draft.push(b"SELECT ")?;
    push_unread(frame.prefix, b"1 ", answer.names.len(), draft)?;
    push_called(answer.names.as_slice(), draft)?;
    push_block(&frame, &answer.query, draft)?;
    push_ordered(answer.keys.as_slice(), draft)
}

/// The text of a query with the names of its columns and the order of its rows, where PROVENANCE is taken out of it; what its
/// tables are called is given. It fails only for want of memory.
pub fn query_text(alloc: Global, tables: &[TableNames], answer: &Answer) -> Result<Bytes, NoMemory>
    ensures { IfOk result (λ text. text
        ≡ answer_bytes tables.now answer.now.query answer.now.names answer.now.keys) }
{
    let mut text = Draft::new(alloc);
    push_answer(tables, answer, &mut text)?;
    Ok(text.into_bytes())
}
