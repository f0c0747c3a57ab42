//! Words of SQL, each with a blank behind it.
ghost use Rattle.std.specs.Prelude.{◌≡◌};
ghost use Rattle.query_texts.specs.clauses.ClauseTexts.{all_text, any_text, asked_back, direction_text, join_text, lateral_on, lateral_text};

use bag_algebra::{JoinKind, SubKind};
use null_logic::Compare;

/// What stands before the query on the right of a join.
pub fn join_text(kind: JoinKind) -> &'static [u8]
    ensures { result.now ≡ join_text kind }
{
    match kind {
        JoinKind::Inner => b"JOIN ( ",
        JoinKind::Left => b"LEFT JOIN ( ",
        JoinKind::Right => b"RIGHT JOIN ( ",
        JoinKind::Full => b"FULL JOIN ( ",
    }
}

/// What stands before the query on the right of a dependent join.
pub fn lateral_text(kind: JoinKind) -> &'static [u8]
    ensures { result.now ≡ lateral_text kind }
{
    match kind {
        JoinKind::Inner => b"CROSS JOIN LATERAL ( ",
        JoinKind::Left => b"LEFT JOIN LATERAL ( ",
        JoinKind::Right => b"CROSS JOIN LATERAL ( ",
        JoinKind::Full => b"CROSS JOIN LATERAL ( ",
    }
}

/// What stands behind the name of a source that stands there for each row.
pub(crate) fn lateral_on(kind: JoinKind) -> &'static [u8]
    ensures { result.now ≡ lateral_on kind }
{
    match kind {
        JoinKind::Inner => b"",
        JoinKind::Left => b"ON TRUE ",
        JoinKind::Right => b"",
        JoinKind::Full => b"",
    }
}

/// What stands between what ANY compares and its query.
pub fn any_text(compare: Compare) -> &'static [u8]
    ensures { result.now ≡ any_text compare }
{
    match compare {
        Compare::Equal => b"IN ( ",
        Compare::NotEqual => b"<> ANY ( ",
        Compare::Less => b"< ANY ( ",
        Compare::LessEqual => b"<= ANY ( ",
        Compare::Greater => b"> ANY ( ",
        Compare::GreaterEqual => b">= ANY ( ",
    }
}

/// What stands between what ALL compares and its query.
pub fn all_text(compare: Compare) -> &'static [u8]
    ensures { result.now ≡ all_text compare }
{
    match compare {
        Compare::Equal => b"= ALL ( ",
        Compare::NotEqual => b"NOT IN ( ",
        Compare::Less => b"< ALL ( ",
        Compare::LessEqual => b"<= ALL ( ",
        Compare::Greater => b"> ALL ( ",
        Compare::GreaterEqual => b">= ALL ( ",
    }
}

/// What stands behind the query of a sublink.
pub fn asked_back(kind: SubKind) -> &'static [u8]
    ensures { result.now ≡ asked_back kind }
{
    match kind {
        SubKind::Exists => b") ",
        SubKind::Any(_) => b") ) ",
        SubKind::All(_) => b") ) ",
        SubKind::Scalar => b") ",
    }
}

pub(crate) fn direction_text(descending: bool) -> &'static [u8]
    ensures { result.now ≡ direction_text descending }
{
    if descending { b"DESC " } else { b"" }
}
