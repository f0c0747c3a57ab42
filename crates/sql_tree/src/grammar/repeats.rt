ghost use Rattle.std.specs.Prelude.{◌≡◌, ◌≤◌, List, length, IfOk};
ghost use Rattle.sql_tree.specs.grammar.Readers.{TakesBelow, ReadsAll};

use crate::grammar::cursor::Cursor;
use crate::grammar::sort::Sort;
use crate::grammar::unread::Unread;
use perm_values::List;

/// As many items as there are, where the next token of one of these sorts begins one.
pub fn all_items<T: Drop, F: Fn(&mut Cursor<'_>) -> Result<T, Unread>>(
    cursor: &mut Cursor<'_>,
    sorts: &[Sort],
    item: F,
) -> Result<List<T>, Unread>
    requires { TakesBelow (length cursor.old) (F.pre item) (F.post item) }
    ensures given { ReadsAll (F.post item) sorts.now cursor.old result cursor.new }
    ensures fewer { IfOk result (λ _. length cursor.new ≤ length cursor.old) }
{
    let mut found = List::new(cursor.alloc());
    while cursor.sees_any(sorts) {
        found.push(item(cursor)?)?;
    }
    Ok(found)
}
