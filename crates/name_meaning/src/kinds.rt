//! Kinds of what may be of any kind.
ghost use Rattle.std.specs.Prelude.{◌≡◌};
ghost use Rattle.name_meaning.specs.Meanings.{settled};
ghost use Rattle.name_meaning.specs.Sublinks.{aggregate_kind};

use perm_values::Kind;
use sql_tree::AggWord;

/// The kind itself, or the wanted one where it may be any.
pub fn settled(kind: Option<Kind>, wanted: Kind) -> Kind
    ensures { result ≡ settled kind wanted }
{
    match kind {
        None => wanted,
        Some(kind) => kind,
    }
}

/// The kind of an aggregate of an argument of this kind; of any, it is Text.
pub fn aggregate_kind(word: AggWord, argument: Option<Kind>) -> Kind
    ensures { result ≡ aggregate_kind word argument }
{
    match word {
        AggWord::CountRows => Kind::Integer,
        AggWord::Count => Kind::Integer,
        AggWord::CountDistinct => Kind::Integer,
        AggWord::Sum => Kind::Integer,
        AggWord::Min => settled(argument, Kind::Text),
        AggWord::Max => settled(argument, Kind::Text),
    }
}
