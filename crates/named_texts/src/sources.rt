//! What stands behind FROM and WHERE.
use crate::columns::{Column, Seen, bytes_of, columns_of_source};
use crate::expressions::push_bare;
use crate::names::Names;
use crate::words::join_words;
use bag_algebra::{Expr, JoinKind, Query};
use perm_values::{Bytes, List, NoMemory, Value};
use std::alloc::Global;
use tree_texts::Draft;

/// What stands behind FROM and behind WHERE, each empty where nothing does, and the columns that these give.
#[derive(Drop)]
pub(crate) struct Block {
    pub(crate) from: Bytes,
    pub(crate) condition: Bytes,
    pub(crate) columns: List<Column>,
}

impl Block {
    /// FROM nothing.
    pub(crate) fn nothing(alloc: Global) -> Block {
        Block {
            from: Bytes::new(alloc),
            condition: Bytes::new(alloc),
            columns: List::new(alloc),
        }
    }

    /// FROM alone.
    fn over(from: Draft, columns: List<Column>, alloc: Global) -> Block {
        Block {
            from: from.into_bytes(),
            condition: Bytes::new(alloc),
            columns,
        }
    }
}

/// Writes FROM and WHERE.
pub(crate) fn push_block(block: &Block, draft: &mut Draft) -> Result<(), NoMemory> {
    draft.push_unless_none(block.from.len(), b"FROM ")?;
    draft.push(block.from.as_slice())?;
    draft.push_unless_none(block.condition.len(), b"WHERE ")?;
    draft.push(block.condition.as_slice())
}

/// Whether a query is FROM and WHERE that give its columns.
pub(crate) fn is_block(query: &Query) -> bool {
    matches!(
        query,
        Query::Table { .. }
            | Query::Single
            | Query::Filter { .. }
            | Query::Join { .. }
            | Query::Apply { .. }
    )
}

/// Whether a query is one SELECT without DISTINCT and groups.
pub(crate) fn is_part(query: &Query) -> bool {
    matches!(query, Query::Project { .. }) || is_block(query)
}

/// Whether joins may follow what a query is behind FROM.
pub(crate) fn is_chain(query: &Query) -> bool {
    match query {
        Query::Table { .. } | Query::Single | Query::Apply { .. } => true,
        Query::Join { kind, .. } => keeps_left(*kind),
        _ => false,
    }
}

/// Whether a join keeps no unmatched rows of its right side: SQLite reads some others wrongly among joins.
pub(crate) fn keeps_left(kind: JoinKind) -> bool {
    matches!(kind, JoinKind::Inner | JoinKind::Left)
}

/// FROM a table.
pub(crate) fn table_block(names: &mut Names, id: u64) -> Result<Block, NoMemory> {
    let alloc = names.alloc();
    let Some(table) = names.table(id) else {
        return Ok(Block::nothing(alloc));
    };
    let source = names.call(table.name.bytes())?;
    let columns = bytes_of(alloc, table.columns.as_slice())?;
    let mut from = Draft::new(alloc);
    from.push_name(table.name.bytes())?;
    if source.as_slice() != table.name.bytes() {
        from.push(b"AS ")?;
        from.push_name(source.as_slice())?;
    }
    let columns = columns_of_source(alloc, source.as_slice(), columns.as_slice())?;
    Ok(Block::over(from, columns, alloc))
}

/// FROM a query in parentheses, of which the text and the names of its columns are given.
pub(crate) fn query_block(
    names: &mut Names,
    name: &[u8],
    text: &Bytes,
    columns: &[Bytes],
) -> Result<Block, NoMemory> {
    let alloc = names.alloc();
    let source = names.call(name)?;
    let mut from = Draft::new(alloc);
    from.push(b"( ")?;
    from.push(text.as_slice())?;
    from.push(b") AS ")?;
    from.push_name(source.as_slice())?;
    let columns = columns_of_source(alloc, source.as_slice(), columns)?;
    Ok(Block::over(from, columns, alloc))
}

fn is_yes(condition: &Expr) -> bool {
    match condition {
        Expr::Lit { value, .. } => matches!(value, Value::Boolean(true)),
        _ => false,
    }
}

/// FROM two sources that are joined, before the condition is known.
pub(crate) fn side_by_side(
    alloc: Global,
    words: &[u8],
    left: Block,
    right: Block,
) -> Result<Block, NoMemory> {
    let mut from = Draft::new(alloc);
    from.push(left.from.as_slice())?;
    from.push(words)?;
    from.push(right.from.as_slice())?;
    let mut columns = left.columns;
    columns.append(right.columns)?;
    Ok(Block::over(from, columns, alloc))
}

/// How two sources are joined on a condition.
pub(crate) fn joining_words(kind: JoinKind, condition: &Expr) -> &'static [u8] {
    if kind == JoinKind::Inner && is_yes(condition) {
        b"CROSS JOIN "
    } else {
        join_words(kind)
    }
}

/// How a source is joined that stands there for each row.
pub(crate) fn lateral_words(kind: JoinKind) -> &'static [u8] {
    if kind == JoinKind::Left {
        b"LEFT JOIN LATERAL "
    } else {
        b"CROSS JOIN LATERAL "
    }
}

/// The block of a join with its condition.
pub(crate) fn joined_on(
    alloc: Global,
    kind: JoinKind,
    condition: &Expr,
    subs: &[Bytes],
    block: Block,
    outer: &Seen,
) -> Result<Block, NoMemory> {
    if kind == JoinKind::Inner && is_yes(condition) {
        return Ok(block);
    }
    let mut from = Draft::new(alloc);
    from.push(block.from.as_slice())?;
    from.push(b"ON ")?;
    let seen = Seen::Row {
        columns: block.columns.as_slice(),
        outer: &*outer,
    };
    push_bare(condition, &seen, subs, &mut from)?;
    Ok(Block::over(from, block.columns, alloc))
}

/// The block of a query behind LATERAL.
pub(crate) fn lateral_on(alloc: Global, kind: JoinKind, block: Block) -> Result<Block, NoMemory> {
    if kind != JoinKind::Left {
        return Ok(block);
    }
    let mut from = Draft::new(alloc);
    from.push(block.from.as_slice())?;
    from.push(b"ON TRUE ")?;
    Ok(Block::over(from, block.columns, alloc))
}

/// The block with a condition behind WHERE.
pub(crate) fn with_condition(
    alloc: Global,
    condition: &Expr,
    subs: &[Bytes],
    block: Block,
    outer: &Seen,
) -> Result<Block, NoMemory> {
    let mut text = Draft::new(alloc);
    let seen = Seen::Row {
        columns: block.columns.as_slice(),
        outer: &*outer,
    };
    push_bare(condition, &seen, subs, &mut text)?;
    Ok(Block {
        from: block.from,
        condition: text.into_bytes(),
        columns: block.columns,
    })
}
