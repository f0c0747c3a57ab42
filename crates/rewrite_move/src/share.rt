//! Which rows of a sublink's query contribute to a row of the node, where a truth of the sublink may be known.
ghost use Rattle.std.specs.Prelude.{◌≡◌};
ghost use Rattle.rewrite_move.specs.Shares.{compared_share, existing_share, share_of};

use bag_algebra::SubKind;
use lateral_rewrite::Choice;
use null_logic::{Compare, Truth};

/// The rows of a sublink's query that contribute.
#[derive(Clone, Copy)]
pub(crate) enum Share {
    /// There is none.
    NoRow,
    AllRows,
    /// Those that compare with the truth that the sublink has.
    MatchingRows(Choice),
    /// The sublink's value decides, which isn't known.
    ByValue,
}

/// What contributes to a sublink of the kind that has this truth, if one is known.
pub(crate) fn share_of(kind: SubKind, known: Option<Truth>) -> Share
    ensures { result ≡ share_of kind known }
{
    match kind {
        SubKind::Exists => existing_share(known),
        SubKind::Any(compare) => compared_share(Truth::True, compare, known),
        SubKind::All(compare) => compared_share(Truth::False, compare, known),
        SubKind::Scalar => Share::AllRows,
    }
}

fn existing_share(known: Option<Truth>) -> Share
    ensures { result ≡ existing_share known }
{
    match known {
        Some(Truth::False) => Share::NoRow,
        Some(Truth::True) => Share::AllRows,
        Some(Truth::Unknown) => Share::AllRows,
        None => Share::AllRows,
    }
}

/// What contributes to a sublink that chooses by its truth and the comparison.
fn compared_share(truth: Truth, compare: Compare, known: Option<Truth>) -> Share
    ensures { result ≡ compared_share (record { truth = truth; compare = compare }) known }
{
    let Some(known) = known else {
        return Share::ByValue;
    };
    if known == truth {
        return Share::MatchingRows(Choice { truth, compare });
    }
    Share::AllRows
}
