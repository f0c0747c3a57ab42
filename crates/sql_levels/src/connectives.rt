//! AND, OR and NOT over predicates.

ghost use Rattle.std.specs.Prelude.{◌≡◌, ◌<◌, ◌≤◌, length, IfOk};
ghost use Rattle.sql_tree.specs.grammar.Building as b;
ghost use Rattle.sql_tree.specs.grammar.Cursors as spec;
ghost use Rattle.sql_tree.specs.grammar.Lists.{more_listed};
ghost use Rattle.sql_tree.specs.grammar.Nests.{ReadsUpTo};
ghost use Rattle.sql_tree.specs.grammar.Symbols as n;
ghost use Rattle.sql_tree.specs.declared.grammar.sort.Sort.TheVariants as s;
ghost use Rattle.sql_tree.specs.declared.expression.ExprBody.TheVariants.{Logic};

use crate::words::words;
use null_logic::Operator;
use perm_values::{Boxed, List, NoMemory};
use sql_tree::{Cursor, ExprBody, ExprTree, Sort, Unread, list_from, node};
use std::alloc::Global;

/// The part under as many NOTs; none leave it as it is.
fn negated(
    alloc: Global,
    at: usize,
    count: u64,
    part: Boxed<ExprTree>,
) -> Result<Boxed<ExprTree>, NoMemory>
    ensures { IfOk result (λ tree. tree ≡ b.negated at count part) }
{
    if count == 0 {
        return Ok(part);
    }
    node(alloc, at, ExprBody::Nots { count, part })
}

/// The parts with an operator between them.
fn connected(
    alloc: Global,
    at: usize,
    op: Operator,
    parts: List<ExprTree>,
) -> Result<Boxed<ExprTree>, NoMemory>
    ensures { IfOk result (λ tree. tree ≡ b.node at (Logic op parts)) }
{
    node(alloc, at, ExprBody::Logic { op, parts })
}

/// AND, OR and NOT, over what reads a predicate where no more than `most` tokens are left.
#[derive(Clone, Copy)]
pub struct Connectives<T> {
    pub test: T,
    pub most: usize,
}

impl<T: Fn(&mut Cursor<'_>) -> Result<Boxed<ExprTree>, Unread>> Connectives<T> {
    fn part(&self, cursor: &mut Cursor<'_>) -> Result<Boxed<ExprTree>, Unread>
        requires sound { ReadsUpTo self.now.most n.Test (T.pre self.now.test) (T.post self.now.test) }
        requires below { length cursor.old ≤ self.now.most }
        ensures given { spec.Reads result (spec.reading n.Test cursor.old) cursor.new }
        ensures fewer { IfOk result (λ _. length cursor.new < length cursor.old) }
    {
        (self.test)(cursor)
    }

    #[tactic(auto, using(crate::proofs::Counts::negated_is))]
    fn negated(&self, cursor: &mut Cursor<'_>) -> Result<Boxed<ExprTree>, Unread>
        requires sound { ReadsUpTo self.now.most n.Test (T.pre self.now.test) (T.post self.now.test) }
        requires below { length cursor.old ≤ self.now.most }
        ensures given { spec.Reads result (spec.reading n.Negated cursor.old) cursor.new }
        ensures fewer { IfOk result (λ _. length cursor.new < length cursor.old) }
    {
        let at = cursor.offset();
        let nots = words(cursor, Sort::Not)?;
        let part = self.part(cursor)?;
        Ok(negated(cursor.alloc(), at, nots.len() as u64, part)?)
    }

    /// A part, and those that stand behind it, each behind AND.
    fn conjuncts(
        &self,
        cursor: &mut Cursor<'_>,
        first: Boxed<ExprTree>,
    ) -> Result<List<ExprTree>, Unread>
        requires sound { ReadsUpTo self.now.most n.Test (T.pre self.now.test) (T.post self.now.test) }
        requires below { length cursor.old ≤ self.now.most }
        ensures given { spec.Reads result
            (more_listed s.And (spec.reading n.Negated) first cursor.old) cursor.new }
        ensures fewer { IfOk result (λ _. length cursor.new ≤ length cursor.old) }
    {
        list_from(
            cursor,
            Sort::And,
            first.into_inner(),
            |cursor: &mut Cursor<'_>| Ok(self.negated(cursor)?.into_inner()),
        )
    }

    #[tactic(auto, using(crate::proofs::Connecting::both_is))]
    fn both(&self, cursor: &mut Cursor<'_>) -> Result<Boxed<ExprTree>, Unread>
        requires sound { ReadsUpTo self.now.most n.Test (T.pre self.now.test) (T.post self.now.test) }
        requires below { length cursor.old ≤ self.now.most }
        ensures given { spec.Reads result (spec.reading n.Both cursor.old) cursor.new }
        ensures fewer { IfOk result (λ _. length cursor.new < length cursor.old) }
    {
        let first = self.negated(cursor)?;
        if !cursor.sees(Sort::And) {
            return Ok(first);
        }
        let at = first.get().at;
        let parts = self.conjuncts(cursor, first)?;
        Ok(connected(cursor.alloc(), at, Operator::And, parts)?)
    }

    /// A part, and those that stand behind it, each behind OR.
    fn disjuncts(
        &self,
        cursor: &mut Cursor<'_>,
        first: Boxed<ExprTree>,
    ) -> Result<List<ExprTree>, Unread>
        requires sound { ReadsUpTo self.now.most n.Test (T.pre self.now.test) (T.post self.now.test) }
        requires below { length cursor.old ≤ self.now.most }
        ensures given { spec.Reads result
            (more_listed s.Or (spec.reading n.Both) first cursor.old) cursor.new }
        ensures fewer { IfOk result (λ _. length cursor.new ≤ length cursor.old) }
    {
        list_from(
            cursor,
            Sort::Or,
            first.into_inner(),
            |cursor: &mut Cursor<'_>| Ok(self.both(cursor)?.into_inner()),
        )
    }

    /// An expression.
    #[tactic(auto, using(crate::proofs::Connecting::expr_is))]
    pub fn disjunction(&self, cursor: &mut Cursor<'_>) -> Result<Boxed<ExprTree>, Unread>
        requires sound { ReadsUpTo self.now.most n.Test (T.pre self.now.test) (T.post self.now.test) }
        requires below { length cursor.old ≤ self.now.most }
        ensures given { spec.Reads result (spec.reading n.Expr cursor.old) cursor.new }
        ensures fewer { IfOk result (λ _. length cursor.new < length cursor.old) }
    {
        let first = self.both(cursor)?;
        if !cursor.sees(Sort::Or) {
            return Ok(first);
        }
        let at = first.get().at;
        let parts = self.disjuncts(cursor, first)?;
        Ok(connected(cursor.alloc(), at, Operator::Or, parts)?)
    }
}
