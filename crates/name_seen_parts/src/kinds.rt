ghost use Rattle.std.specs.Prelude.{◌≡◌};
ghost use Rattle.name_meaning.specs.Meanings.{is_same_kind, unites, united_kind};

use perm_values::Kind;

pub fn is_same_kind(left: Kind, right: Kind) -> bool
    ensures { result ≡ is_same_kind left right }
{
    match left {
        Kind::Integer => matches!(right, Kind::Integer),
        Kind::Text => matches!(right, Kind::Text),
        Kind::Boolean => matches!(right, Kind::Boolean),
    }
}

/// Whether the kinds are the same, or one is any.
pub fn unites(left: Option<Kind>, right: Option<Kind>) -> bool
    ensures { result ≡ unites left right }
{
    match left {
        None => true,
        Some(kind) => match right {
            None => true,
            Some(other) => is_same_kind(kind, other),
        },
    }
}

/// The kind that both have, where they unite.
pub fn united_kind(left: Option<Kind>, right: Option<Kind>) -> Option<Kind>
    ensures { result ≡ united_kind left right }
{
    match left {
        None => right,
        Some(kind) => Some(kind),
    }
}
