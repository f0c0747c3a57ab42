//! Writes queries: one SELECT for a block of SQL, over tables by their names.
use crate::columns::{Seen, bytes_of};
use crate::lists::{
    column_names, group_names, item_names, push_aggregates, push_columns, push_group_by,
    push_groups, push_items,
};
use crate::names::Names;
use crate::sources::{
    Block, is_block, is_chain, is_part, joined_on, joining_words, keeps_left, lateral_on,
    lateral_words, push_block, query_block, side_by_side, table_block, with_condition,
};
use crate::sublinks::push_asking;
use bag_algebra::{Aggr, Answer, Item, JoinKind, Query, SubKind, Sublink};
use perm_values::{Bytes, List, NoMemory};
use query_texts::{TableNames, push_limit, push_ordered, push_set};
use std::alloc::Global;
use tree_texts::Draft;

/// What a query in FROM is called that is no table: by the table that its rows are of, or by its topmost node.
#[cycle(source_name)]
fn source_name<'a>(names: &Names<'a>, query: &Query) -> &'a [u8] {
    match query {
        Query::Table { id, .. } => match names.table(*id) {
            Some(table) => table.name.bytes(),
            None => b"rows",
        },
        Query::Filter { input, .. } | Query::Distinct { input } | Query::Limit { input, .. } => {
            source_name(names, input.get())
        }
        Query::Project { input, .. } | Query::Base { input, .. } | Query::Prov { input } => {
            source_name(names, input.get())
        }
        Query::Aggregate { .. } => b"groups",
        Query::Join { .. } | Query::Apply { .. } => b"joined",
        Query::Union { .. } | Query::Intersect { .. } | Query::Except { .. } => b"united",
        Query::Single => b"rows",
    }
}

/// Writes a query and gives the names of its columns: these, or if there are none, its own.
#[cycle(push_query)]
fn push_query(
    names: &mut Names,
    query: &Query,
    wanted: &[Bytes],
    outer: &Seen,
    draft: &mut Draft,
) -> Result<List<Bytes>, NoMemory> {
    match query {
        Query::Union { all, left, right } => {
            let called = push_selected(names, left.get(), wanted, outer, draft)?;
            push_set(b"UNION ", *all, draft)?;
            push_selected(names, right.get(), called.as_slice(), outer, draft)
        }
        Query::Intersect { all, left, right } => {
            let called = push_selected(names, left.get(), wanted, outer, draft)?;
            push_set(b"INTERSECT ", *all, draft)?;
            push_selected(names, right.get(), called.as_slice(), outer, draft)
        }
        Query::Except { all, left, right } => {
            let called = push_selected(names, left.get(), wanted, outer, draft)?;
            push_set(b"EXCEPT ", *all, draft)?;
            push_selected(names, right.get(), called.as_slice(), outer, draft)
        }
        Query::Distinct { input } => {
            draft.push(b"SELECT DISTINCT ")?;
            push_listed(names, input.get(), wanted, outer, draft)
        }
        Query::Aggregate {
            input,
            groups,
            aggregates,
        } => {
            let block = block(names, input.get(), outer)?;
            push_grouped(
                &block,
                groups.as_slice(),
                aggregates.as_slice(),
                wanted,
                outer,
                draft,
            )
        }
        Query::Limit { input, keys, count } => {
            let called = push_selected(names, input.get(), wanted, outer, draft)?;
            push_limit(keys.as_slice(), called.len(), *count, draft)?;
            Ok(called)
        }
        Query::Base { input, .. } => push_query(names, input.get(), wanted, outer, draft),
        Query::Prov { input } => push_query(names, input.get(), wanted, outer, draft),
        _ => {
            draft.push(b"SELECT ")?;
            push_part(names, query, wanted, outer, draft)
        }
    }
}

/// Writes a query as one SELECT.
#[cycle(push_query)]
fn push_selected(
    names: &mut Names,
    query: &Query,
    wanted: &[Bytes],
    outer: &Seen,
    draft: &mut Draft,
) -> Result<List<Bytes>, NoMemory> {
    draft.push(b"SELECT ")?;
    push_listed(names, query, wanted, outer, draft)
}

/// Writes what stands behind the word of one SELECT that gives the columns of a query.
#[cycle(push_query)]
fn push_listed(
    names: &mut Names,
    query: &Query,
    wanted: &[Bytes],
    outer: &Seen,
    draft: &mut Draft,
) -> Result<List<Bytes>, NoMemory> {
    if is_part(query) {
        push_part(names, query, wanted, outer, draft)
    } else {
        let block = derived(names, query, outer)?;
        push_whole(&block, wanted, draft)
    }
}

/// Writes what stands behind the word of a query that is one SELECT without DISTINCT and groups.
#[cycle(push_query)]
fn push_part(
    names: &mut Names,
    query: &Query,
    wanted: &[Bytes],
    outer: &Seen,
    draft: &mut Draft,
) -> Result<List<Bytes>, NoMemory> {
    match query {
        Query::Project { input, items, subs } => {
            let block = block(names, input.get(), outer)?;
            let texts = texts_within(names, subs.as_slice(), &block, outer)?;
            push_projected(
                &block,
                items.as_slice(),
                texts.as_slice(),
                wanted,
                outer,
                draft,
            )
        }
        _ => {
            let block = own_block(names, query, outer)?;
            push_whole(&block, wanted, draft)
        }
    }
}

/// Writes items over FROM and WHERE.
fn push_projected(
    block: &Block,
    items: &[Item],
    subs: &[Bytes],
    wanted: &[Bytes],
    outer: &Seen,
    draft: &mut Draft,
) -> Result<List<Bytes>, NoMemory> {
    let seen = Seen::Row {
        columns: block.columns.as_slice(),
        outer: &*outer,
    };
    let called = item_names(draft.alloc(), items, &seen, wanted)?;
    push_items(items, &seen, subs, called.as_slice(), draft)?;
    push_block(block, draft)?;
    Ok(called)
}

/// Writes all columns over FROM and WHERE.
fn push_whole(block: &Block, wanted: &[Bytes], draft: &mut Draft) -> Result<List<Bytes>, NoMemory> {
    let called = column_names(draft.alloc(), block.columns.as_slice(), wanted)?;
    push_columns(block.columns.as_slice(), called.as_slice(), draft)?;
    push_block(block, draft)?;
    Ok(called)
}

/// Writes groups over FROM and WHERE.
fn push_grouped(
    block: &Block,
    groups: &[usize],
    aggregates: &[Aggr],
    wanted: &[Bytes],
    outer: &Seen,
    draft: &mut Draft,
) -> Result<List<Bytes>, NoMemory> {
    let columns = block.columns.as_slice();
    let seen = Seen::Row {
        columns,
        outer: &*outer,
    };
    let called = group_names(draft.alloc(), columns, groups, aggregates, wanted)?;
    draft.push(b"SELECT ")?;
    push_groups(columns, groups, called.as_slice(), draft)?;
    push_aggregates(aggregates, groups.len(), &seen, called.as_slice(), draft)?;
    push_block(block, draft)?;
    push_group_by(columns, groups, draft)?;
    Ok(called)
}

// ---- FROM and WHERE

/// FROM and WHERE that give the columns of a query.
#[cycle(push_query)]
fn block(names: &mut Names, query: &Query, outer: &Seen) -> Result<Block, NoMemory> {
    if is_block(query) {
        own_block(names, query, outer)
    } else {
        derived(names, query, outer)
    }
}

/// FROM that gives the columns of a query, and that joins may follow.
#[cycle(push_query)]
fn source(names: &mut Names, query: &Query, outer: &Seen) -> Result<Block, NoMemory> {
    if is_chain(query) {
        own_block(names, query, outer)
    } else {
        derived(names, query, outer)
    }
}

/// FROM that gives the columns of a query by one source.
#[cycle(push_query)]
fn one_source(names: &mut Names, query: &Query, outer: &Seen) -> Result<Block, NoMemory> {
    match query {
        Query::Table { id, .. } => table_block(names, *id),
        _ => derived(names, query, outer),
    }
}

/// What is left of a join.
#[cycle(push_query)]
fn left_side(
    names: &mut Names,
    kind: JoinKind,
    query: &Query,
    outer: &Seen,
) -> Result<Block, NoMemory> {
    if keeps_left(kind) {
        source(names, query, outer)
    } else {
        one_source(names, query, outer)
    }
}

/// FROM and WHERE of a query that is these, and nothing of any other.
#[cycle(push_query)]
fn own_block(names: &mut Names, query: &Query, outer: &Seen) -> Result<Block, NoMemory> {
    let alloc = names.alloc();
    match query {
        Query::Table { id, .. } => table_block(names, *id),
        Query::Filter {
            input,
            condition,
            subs,
        } => {
            let block = source(names, input.get(), outer)?;
            let texts = texts_within(names, subs.as_slice(), &block, outer)?;
            with_condition(alloc, condition, texts.as_slice(), block, outer)
        }
        Query::Join {
            kind,
            left,
            right,
            condition,
            subs,
        } => {
            let left = left_side(names, *kind, left.get(), outer)?;
            let right = one_source(names, right.get(), outer)?;
            let block = side_by_side(alloc, joining_words(*kind, condition), left, right)?;
            let texts = texts_within(names, subs.as_slice(), &block, outer)?;
            joined_on(alloc, *kind, condition, texts.as_slice(), block, outer)
        }
        Query::Apply { kind, left, right } => {
            let left = source(names, left.get(), outer)?;
            let right = within(names, right.get(), &left, outer)?;
            let block = side_by_side(alloc, lateral_words(*kind), left, right)?;
            lateral_on(alloc, *kind, block)
        }
        _ => Ok(Block::nothing(alloc)),
    }
}

/// FROM a query that stands there for each row of a block.
#[cycle(push_query)]
fn within(
    names: &mut Names,
    query: &Query,
    block: &Block,
    outer: &Seen,
) -> Result<Block, NoMemory> {
    let seen = Seen::Row {
        columns: block.columns.as_slice(),
        outer: &*outer,
    };
    derived(names, query, &seen)
}

/// FROM a query in parentheses.
#[cycle(push_query)]
fn derived(names: &mut Names, query: &Query, outer: &Seen) -> Result<Block, NoMemory> {
    let name = source_name(names, query);
    let mut text = Draft::new(names.alloc());
    let columns = push_query(names, query, &[], outer, &mut text)?;
    query_block(names, name, &text.into_bytes(), columns.as_slice())
}

// ---- sublinks

/// The texts of the sublinks of a node over a block.
#[cycle(push_query)]
fn texts_within(
    names: &mut Names,
    subs: &[Sublink],
    block: &Block,
    outer: &Seen,
) -> Result<List<Bytes>, NoMemory> {
    let seen = Seen::Row {
        columns: block.columns.as_slice(),
        outer: &*outer,
    };
    sub_texts(names, subs, &seen)
}

/// The texts of the sublinks of a node.
#[cycle(push_query)]
fn sub_texts(names: &mut Names, subs: &[Sublink], seen: &Seen) -> Result<List<Bytes>, NoMemory> {
    let mut texts = List::new(names.alloc());
    for sub in subs {
        texts.push(sub_text(names, sub, seen)?)?;
    }
    Ok(texts)
}

#[cycle(push_query)]
fn sub_text(names: &mut Names, sub: &Sublink, seen: &Seen) -> Result<Bytes, NoMemory> {
    let mut text = Draft::new(names.alloc());
    push_asking(sub.kind, &sub.tested, seen, &mut text)?;
    if sub.kind == SubKind::Exists && is_block(&sub.query) {
        let block = own_block(names, &sub.query, seen)?;
        text.push(b"SELECT 1 ")?;
        push_block(&block, &mut text)?;
    } else {
        push_query(names, &sub.query, &[], seen, &mut text)?;
    }
    text.push(b") ")?;
    Ok(text.into_bytes())
}

// ---- answers

/// Writes the query of an answer, which ORDER BY may follow.
fn push_answer(names: &mut Names, answer: &Answer, draft: &mut Draft) -> Result<(), NoMemory> {
    let wanted = bytes_of(names.alloc(), answer.names.as_slice())?;
    let wanted = wanted.as_slice();
    if let Query::Limit { .. } = &answer.query {
        push_selected(names, &answer.query, wanted, &Seen::Nothing, draft)?;
    } else {
        push_query(names, &answer.query, wanted, &Seen::Nothing, draft)?;
    }
    push_ordered(answer.keys.as_slice(), draft)
}

/// The text of a query without PROVENANCE, with the names of its columns and the order of its rows; what its tables are called
/// is given. It is made to be read by people, and no clause says what it means. It fails only for want of memory.
pub fn named_text(
    alloc: Global,
    tables: &[TableNames],
    answer: &Answer,
) -> Result<Bytes, NoMemory> {
    let mut names = Names::new(alloc, tables);
    let mut text = Draft::new(alloc);
    push_answer(&mut names, answer, &mut text)?;
    Ok(text.into_bytes())
}
