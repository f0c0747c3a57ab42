//! Words that stand before a part as often as one likes.

ghost use Rattle.std.specs.Prelude.{◌≡◌, ◌≤◌, [], ◌∷◌, length, IfOk};
ghost use Rattle.sql_tree.specs.grammar.Cursors as spec;
ghost use Rattle.sql_tree.specs.grammar.Lists.{all_of};

use perm_values::List;
use sql_tree::{Cursor, Sort, Unread, all_items};

/// Goes past all of this word that stand next.
pub(crate) fn words(cursor: &mut Cursor<'_>, word: Sort) -> Result<List<()>, Unread>
    ensures given { spec.Reads result (all_of (word ∷ []) (spec.past word) cursor.old) cursor.new }
    ensures fewer { IfOk result (λ _. length cursor.new ≤ length cursor.old) }
{
    all_items(cursor, &[word], |cursor: &mut Cursor<'_>| cursor.past(word))
}
