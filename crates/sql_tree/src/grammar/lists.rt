ghost use Rattle.std.specs.Prelude.{◌≡◌, ◌≤◌, List, length, IfOk};
ghost use Rattle.sql_tree.specs.grammar.Readers.{IsCallable, ReadsList, ReadsMore};

use crate::grammar::cursor::Cursor;
use crate::grammar::sort::Sort;
use crate::grammar::unread::Unread;
use perm_values::List;

/// The first item, which was read before, and more, each behind a separator.
pub fn list_from<T: Drop, F: Fn(&mut Cursor<'_>) -> Result<T, Unread>>(
    cursor: &mut Cursor<'_>,
    separator: Sort,
    first: T,
    item: F,
) -> Result<List<T>, Unread>
    requires { IsCallable (length cursor.old) (F.pre item) (F.post item) }
    ensures given { ReadsMore (F.post item) separator first cursor.old result cursor.new }
    ensures fewer { IfOk result (λ _. length cursor.new ≤ length cursor.old) }
{
    let mut found = List::new(cursor.alloc());
    found.push(first)?;
    while cursor.sees(separator) {
        cursor.past(separator)?;
        found.push(item(cursor)?)?;
    }
    Ok(found)
}

/// One item and more, each behind a separator.
pub fn list_of<T: Drop, F: Fn(&mut Cursor<'_>) -> Result<T, Unread>>(
    cursor: &mut Cursor<'_>,
    separator: Sort,
    item: F,
) -> Result<List<T>, Unread>
    requires { IsCallable (length cursor.old) (F.pre item) (F.post item) }
    ensures given { ReadsList (F.post item) separator cursor.old result cursor.new }
    ensures fewer { IfOk result (λ _. length cursor.new ≤ length cursor.old) }
{
    let first = item(cursor)?;
    list_from(cursor, separator, first, item)
}
