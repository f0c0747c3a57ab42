//! Columns, as expressions.
ghost use Rattle.std.specs.Prelude.{◌≡◌, ℕ};
ghost use Rattle.name_meaning.specs.Meanings.{Before, Surroundings};
ghost use Rattle.name_meaning.specs.Sublinks.{built_alone, column_meant};

use crate::nodes::expressions::null_at;
use crate::scope::Found;
use bag_algebra::Expr;
use perm_values::Kind;

/// The column that a reference means; where it means none, or one that is not grouped, it is of no account.
pub fn column_made(found: Found, wanted: Kind) -> Expr
    ensures { (here : Surroundings) (at : ℕ) (before : Before)
        → built_alone result ≡ (column_meant here at found).make wanted before }
{
    match found {
        Found::Absent => null_at(wanted),
        Found::Ambiguous => null_at(wanted),
        Found::Column(column) => match column.place {
            None => null_at(column.kind),
            Some(place) => Expr::Col {
                level: column.level,
                place,
            },
        },
    }
}
