//! Expressions hold queries, and queries expressions: a rule that holds either gets what reads them, and is proved by itself.

ghost use Rattle.std.specs.Prelude.{◌≡◌, ◌<◌, ◌≤◌, length, IfOk};
ghost use Rattle.sql_tree.specs.grammar.Building as b;
ghost use Rattle.sql_tree.specs.grammar.Cursors as spec;
ghost use Rattle.sql_tree.specs.grammar.Nests.{NestReads};
ghost use Rattle.sql_tree.specs.grammar.Symbols as n;

use crate::grammar::cursor::Cursor;
use crate::grammar::lists::list_of;
use crate::grammar::sort::Sort;
use crate::grammar::unread::Unread;
use crate::{ExprBody, ExprTree, QueryTree};
use perm_values::{Boxed, List, NoMemory};
use std::alloc::Global;

/// What reads an expression and what reads a query, where fewer than `most` tokens are left.
#[derive(Clone, Copy)]
pub struct Nest<F, G> {
    pub expr: F,
    pub query: G,
    pub most: usize,
}

impl<
    F: Fn(&mut Cursor<'_>) -> Result<Boxed<ExprTree>, Unread>,
    G: Fn(&mut Cursor<'_>) -> Result<Boxed<QueryTree>, Unread>,
> Nest<F, G> {
    #[tactic(auto, using(crate::proofs::Nested::expr_takes))]
    pub fn expression(&self, cursor: &mut Cursor<'_>) -> Result<Boxed<ExprTree>, Unread>
        requires sound { NestReads self.now F.pre G.pre F.post G.post }
        requires below { length cursor.old < self.now.most }
        ensures given { spec.Reads result (spec.reading n.Expr cursor.old) cursor.new }
        ensures fewer { IfOk result (λ _. length cursor.new < length cursor.old) }
    {
        (self.expr)(cursor)
    }

    #[tactic(auto, using(crate::proofs::Nested::query_takes))]
    pub fn nested_query(&self, cursor: &mut Cursor<'_>) -> Result<Boxed<QueryTree>, Unread>
        requires sound { NestReads self.now F.pre G.pre F.post G.post }
        requires below { length cursor.old < self.now.most }
        ensures given { spec.Reads result (spec.reading n.Query cursor.old) cursor.new }
        ensures fewer { IfOk result (λ _. length cursor.new < length cursor.old) }
    {
        (self.query)(cursor)
    }

    /// A query that begins with the word SELECT: it is read as any query is.
    #[tactic(auto, using(crate::proofs::Inner::inner_by_query))]
    pub fn inner(&self, cursor: &mut Cursor<'_>) -> Result<Boxed<QueryTree>, Unread>
        requires sound { NestReads self.now F.pre G.pre F.post G.post }
        requires below { length cursor.old < self.now.most }
        ensures given { spec.Reads result (spec.reading n.Inner cursor.old) cursor.new }
        ensures fewer { IfOk result (λ _. length cursor.new < length cursor.old) }
    {
        if cursor.sees(Sort::Select) {
            self.nested_query(cursor)
        } else {
            Err(Unread::Unexpected)
        }
    }

    #[tactic(auto, using(crate::proofs::Sequenced::in_parentheses_is))]
    pub fn in_parentheses(&self, cursor: &mut Cursor<'_>) -> Result<Boxed<QueryTree>, Unread>
        requires sound { NestReads self.now F.pre G.pre F.post G.post }
        requires below { length cursor.old ≤ self.now.most }
        ensures given { spec.Reads result (spec.reading n.InParentheses cursor.old) cursor.new }
        ensures fewer { IfOk result (λ _. length cursor.new < length cursor.old) }
    {
        cursor.past(Sort::Opening)?;
        let query = self.inner(cursor)?;
        cursor.value_before(query, Sort::Closing)
    }

    /// Expressions with commas between them.
    pub fn expressions(&self, cursor: &mut Cursor<'_>) -> Result<List<ExprTree>, Unread>
        requires sound { NestReads self.now F.pre G.pre F.post G.post }
        requires below { length cursor.old < self.now.most }
        ensures given { spec.Reads result (spec.reading n.Exprs cursor.old) cursor.new }
        ensures fewer { IfOk result (λ _. length cursor.new < length cursor.old) }
    {
        list_of(cursor, Sort::Comma, |cursor: &mut Cursor<'_>| {
            Ok(self.expression(cursor)?.into_inner())
        })
    }
}

/// A node in a box.
pub fn node(alloc: Global, at: usize, body: ExprBody) -> Result<Boxed<ExprTree>, NoMemory>
    ensures { IfOk result (λ tree. tree ≡ b.node at body) }
{
    Boxed::new(alloc, ExprTree { at, body })
}
