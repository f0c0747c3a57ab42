//! Writes what stands before the query of a sublink.
ghost use Rattle.std.specs.Prelude.{◌≡◌, ◌++◌, OnOk};
ghost use Rattle.query_texts.specs.clauses.ClauseTexts.{asking_text, part_text, tested_text};

use crate::clauses::words::{all_text, any_text};
use bag_algebra::{Expr, SubKind};
use perm_values::NoMemory;
use tree_texts::{Draft, push_expr};

fn push_part(prefix: &[u8], tested: &Option<Expr>, draft: &mut Draft) -> Result<(), NoMemory>
    ensures { OnOk result (draft.new ≡ draft.old ++ part_text prefix.now tested.now) }
{
    match tested {
        None => draft.push_unsaid(),
        Some(part) => push_expr(part, prefix, &[], draft),
    }
}

/// What ANY and ALL compare, and how.
fn push_tested(
    prefix: &[u8],
    tested: &Option<Expr>,
    word: &[u8],
    draft: &mut Draft,
) -> Result<(), NoMemory>
    ensures { OnOk result (draft.new ≡ draft.old ++ tested_text prefix.now tested.now word.now) }
{
    draft.push(b"( ")?;
    push_part(prefix, tested, draft)?;
    draft.push(word)
}

/// What stands before the query of a sublink.
pub fn push_asking(
    prefix: &[u8],
    kind: SubKind,
    tested: &Option<Expr>,
    draft: &mut Draft,
) -> Result<(), NoMemory>
    ensures { OnOk result (draft.new ≡ draft.old ++ asking_text prefix.now kind tested.now) }
{
    match kind {
        SubKind::Exists => draft.push(b"EXISTS ( "),
        SubKind::Any(compare) => push_tested(prefix, tested, any_text(compare), draft),
        SubKind::All(compare) => push_tested(prefix, tested, all_text(compare), draft),
        SubKind::Scalar => draft.push(b"( "),
    }
}
