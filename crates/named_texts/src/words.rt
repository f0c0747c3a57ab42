//! Words of SQL, each with a blank behind it.
use bag_algebra::{AggFn, JoinKind};
use perm_values::NoMemory;
use tree_texts::Draft;

/// Writes an operator.
pub(crate) fn push_spelling(spelling: &str, draft: &mut Draft) -> Result<(), NoMemory> {
    draft.push(spelling.as_bytes())?;
    draft.push(b" ")
}

pub(crate) fn join_words(kind: JoinKind) -> &'static [u8] {
    match kind {
        JoinKind::Inner => b"JOIN ",
        JoinKind::Left => b"LEFT JOIN ",
        JoinKind::Right => b"RIGHT JOIN ",
        JoinKind::Full => b"FULL JOIN ",
    }
}

/// What stands before the argument of an aggregate.
pub(crate) fn aggregate_words(function: AggFn) -> &'static [u8] {
    match function {
        AggFn::CountRows => b"COUNT ( * ",
        AggFn::Count => b"COUNT ( ",
        AggFn::CountDistinct => b"COUNT ( DISTINCT ",
        AggFn::Sum => b"SUM ( ",
        AggFn::Min => b"MIN ( ",
        AggFn::Max => b"MAX ( ",
    }
}

/// What a column of an aggregate is called.
pub(crate) fn aggregate_name(function: AggFn) -> &'static [u8] {
    match function {
        AggFn::CountRows => b"count",
        AggFn::Count => b"count",
        AggFn::CountDistinct => b"count",
        AggFn::Sum => b"sum",
        AggFn::Min => b"min",
        AggFn::Max => b"max",
    }
}
