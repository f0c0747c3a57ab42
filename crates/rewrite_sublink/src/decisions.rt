//! What the rows beside a sublink's candidates are chosen by.
ghost use Rattle.std.specs.Prelude.{◌≡◌};
ghost use Rattle.rewrite_sublink.specs.Candidates.{deciding};

use bag_algebra::SubKind;
use null_logic::Truth;

/// The value with which a sublink lets those rows alone contribute that compare so: a true ANY, a false ALL.
pub(crate) fn deciding(kind: SubKind) -> Option<Truth>
    ensures { result ≡ deciding kind }
{
    match kind {
        SubKind::Exists => None,
        SubKind::Any(_) => Some(Truth::True),
        SubKind::All(_) => Some(Truth::False),
        SubKind::Scalar => None,
    }
}

/// Where a candidate stands, seen from the rows of a sublink's query: in the nearest outer row.
pub(crate) fn candidate_level() -> usize
    ensures { result ≡ 1 }
{
    1
}
