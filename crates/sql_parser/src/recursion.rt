//! Expressions hold queries, and queries expressions.

ghost use Rattle.std.specs.Prelude.{◌≡◌, ◌<◌, ◌≤◌, length, IfOk};
ghost use Rattle.sql_tree.specs.grammar.Cursors as spec;
ghost use Rattle.sql_tree.specs.grammar.Symbols as n;

use crate::expression::expression;
use perm_values::Boxed;
use sql_queries::Queries;
use sql_tree::{Cursor, ExprTree, Nest, QueryTree, Unread};

#[cycle(grammar)]
pub(crate) fn expr(cursor: &mut Cursor<'_>) -> Result<Boxed<ExprTree>, Unread>
    ensures given { spec.Reads result (spec.reading n.Expr cursor.old) cursor.new }
    ensures fewer { IfOk result (λ _. length cursor.new < length cursor.old) }
{
    let most = cursor.left();
    let nest = Nest { expr, query, most };
    expression(&nest, cursor)
}

#[cycle(grammar)]
pub(crate) fn query(cursor: &mut Cursor<'_>) -> Result<Boxed<QueryTree>, Unread>
    ensures given { spec.Reads result (spec.reading n.Query cursor.old) cursor.new }
    ensures fewer { IfOk result (λ _. length cursor.new < length cursor.old) }
{
    let most = cursor.left();
    let nest = Nest { expr, query, most };
    Queries { nest }.query_body(cursor)
}

/// WHERE and its condition.
pub(crate) fn condition(cursor: &mut Cursor<'_>) -> Result<Option<Boxed<ExprTree>>, Unread>
    ensures given { spec.Reads result (spec.reading n.Condition cursor.old) cursor.new }
    ensures fewer { IfOk result (λ _. length cursor.new ≤ length cursor.old) }
{
    let most = cursor.left();
    let nest = Nest { expr, query, most };
    Queries { nest }.condition(cursor)
}
