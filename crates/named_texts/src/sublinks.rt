//! Writes what stands around the query of a sublink.
use crate::columns::Seen;
use crate::expressions::push_part;
use bag_algebra::{Expr, SubKind};
use perm_values::NoMemory;
use query_texts::{all_text, any_text};
use tree_texts::Draft;

/// What stands before the query of a sublink.
pub(crate) fn push_asking(
    kind: SubKind,
    tested: &Option<Expr>,
    seen: &Seen,
    draft: &mut Draft,
) -> Result<(), NoMemory> {
    if let Some(part) = tested {
        push_part(part, seen, &[], draft)?;
    }
    match kind {
        SubKind::Exists => draft.push(b"EXISTS ( "),
        SubKind::Any(compare) => draft.push(any_text(compare)),
        SubKind::All(compare) => draft.push(all_text(compare)),
        SubKind::Scalar => draft.push(b"( "),
    }
}
