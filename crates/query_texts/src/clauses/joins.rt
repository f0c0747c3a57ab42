//! Writes what stands around the queries that joins and set operations put together.
ghost use Rattle.std.specs.Prelude.{◌≡◌, ◌++◌, OnOk};
ghost use Rattle.query_texts.specs.clauses.ClauseTexts.{lateral_on, set_text, source_text};

use crate::clauses::words::lateral_on;
use bag_algebra::JoinKind;
use perm_values::NoMemory;
use tree_texts::Draft;

/// What ends the source whose columns begin with a number: its name.
pub fn push_source(number: usize, draft: &mut Draft) -> Result<(), NoMemory>
    ensures { OnOk result (draft.new ≡ draft.old ++ source_text number) }
{
    draft.push(b") AS ")?;
    draft.push_column(b"t", 0, number)
}

/// What ends a source behind LATERAL.
pub fn push_lateral_source(kind: JoinKind, number: usize, draft: &mut Draft) -> Result<(), NoMemory>
    ensures { OnOk result (draft.new ≡ draft.old ++ (source_text number ++ lateral_on kind)) }
{
    push_source(number, draft)?;
    draft.push(lateral_on(kind))
}

/// The word of a set operation, and ALL.
pub fn push_set(word: &[u8], all: bool, draft: &mut Draft) -> Result<(), NoMemory>
    ensures { OnOk result (draft.new ≡ draft.old ++ set_text word.now all) }
{
    draft.push(word)?;
    if all { draft.push(b"ALL ") } else { Ok(()) }
}
