//! Queries and their set operations (ISO/IEC 9075-2, 'query expression').

ghost use Rattle.std.specs.Prelude.{◌≡◌, ◌<◌, ◌≤◌, Ok, length, IfOk};
ghost use Rattle.sql_tree.specs.grammar.Building as b;
ghost use Rattle.sql_tree.specs.grammar.Cursors as spec;
ghost use Rattle.sql_tree.specs.grammar.Nests.{NestReads};
ghost use Rattle.sql_tree.specs.grammar.built.Pieces as piece;
ghost use Rattle.sql_tree.specs.grammar.Symbols as n;

use crate::grammar::Queries;
use perm_values::{Boxed, List, NoMemory, both};
use sql_lexer::Token;
use sql_tree::{
    Cursor, ExprTree, OrderTree, QueryTree, SetStep, SetTree, SetWord, Sort, Unread, all_items,
    same_sort, sort_of,
};
use std::alloc::Global;

fn set_word(token: &Token<'_>) -> SetWord
    ensures { result ≡ b.set_word token.now }
{
    if same_sort(sort_of(token), Sort::Union) {
        SetWord::Union
    } else {
        SetWord::Except
    }
}

/// The chain of the steps behind the first operand; without steps the operand itself.
#[tactic(auto, using(sql_tree::proofs::Queries::set_chain_of))]
fn set_chain(
    alloc: Global,
    first: Boxed<SetTree>,
    steps: List<SetStep>,
) -> Result<Boxed<SetTree>, NoMemory>
    ensures { IfOk result (λ tree. tree ≡ b.set_chain (first, steps)) }
{
    if steps.is_empty() {
        return Ok(first);
    }
    Boxed::new(alloc, SetTree::Chain { first, steps })
}

fn query_tree(
    alloc: Global,
    at: usize,
    first: Boxed<SetTree>,
    rest: (
        List<SetStep>,
        (List<SetStep>, (List<OrderTree>, Option<i64>)),
    ),
) -> Result<Boxed<QueryTree>, NoMemory>
    ensures { IfOk result (λ tree. tree ≡ b.query_rest rest at first) }
{
    let (intersections, behind) = rest;
    let (term, (unions, ends)) = both(set_chain(alloc, first, intersections), Ok(behind))?;
    let (body, (order, limit)) = both(set_chain(alloc, term, unions), Ok(ends))?;
    let query = QueryTree {
        at,
        body: body.into_inner(),
        order,
        limit,
    };
    Boxed::new(alloc, query)
}

impl<
    F: Fn(&mut Cursor<'_>) -> Result<Boxed<ExprTree>, Unread>,
    G: Fn(&mut Cursor<'_>) -> Result<Boxed<QueryTree>, Unread>,
> Queries<F, G> {
    #[tactic(auto, using(crate::proofs::Parts::parenthesised_is))]
    fn parenthesised(&self, cursor: &mut Cursor<'_>) -> Result<Boxed<SetTree>, Unread>
        requires sound { NestReads self.now.nest F.pre G.pre F.post G.post }
        requires below { length cursor.old ≤ self.now.nest.most }
        ensures given { spec.Reads result (piece.parenthesised cursor.old) cursor.new }
        ensures fewer { IfOk result (λ _. length cursor.new < length cursor.old) }
    {
        cursor.past(Sort::Opening)?;
        let query = self.nest.nested_query(cursor)?;
        let tree = Boxed::new(cursor.alloc(), SetTree::Paren(query))?;
        cursor.value_before(tree, Sort::Closing)
    }

    #[tactic(auto, using(sql_tree::proofs::Queries::operand_is))]
    fn operand(&self, cursor: &mut Cursor<'_>) -> Result<Boxed<SetTree>, Unread>
        requires sound { NestReads self.now.nest F.pre G.pre F.post G.post }
        requires below { length cursor.old ≤ self.now.nest.most }
        ensures given { spec.Reads result (spec.reading n.Operand cursor.old) cursor.new }
        ensures fewer { IfOk result (λ _. length cursor.new < length cursor.old) }
    {
        if cursor.sees(Sort::Select) {
            let core = self.core(cursor)?;
            Ok(Boxed::new(cursor.alloc(), SetTree::Core(core))?)
        } else {
            self.parenthesised(cursor)
        }
    }

    #[tactic(auto, using(sql_tree::proofs::Queries::intersect_is))]
    fn intersect_step(&self, cursor: &mut Cursor<'_>) -> Result<SetStep, Unread>
        requires sound { NestReads self.now.nest F.pre G.pre F.post G.post }
        requires below { length cursor.old ≤ self.now.nest.most }
        ensures given { spec.Reads result (spec.reading n.IntersectStep cursor.old) cursor.new }
        ensures fewer { IfOk result (λ _. length cursor.new < length cursor.old) }
    {
        cursor.past(Sort::Intersect)?;
        let all = cursor.passes(Sort::All)?;
        let at = cursor.offset();
        let operand = self.operand(cursor)?;
        Ok(SetStep {
            word: SetWord::Intersect,
            all,
            at,
            operand: operand.into_inner(),
        })
    }

    fn intersections(&self, cursor: &mut Cursor<'_>) -> Result<List<SetStep>, Unread>
        requires sound { NestReads self.now.nest F.pre G.pre F.post G.post }
        requires below { length cursor.old ≤ self.now.nest.most }
        ensures given { spec.Reads result (piece.intersections cursor.old) cursor.new }
        ensures fewer { IfOk result (λ _. length cursor.new ≤ length cursor.old) }
    {
        all_items(
            cursor,
            &[Sort::Intersect],
            |cursor: &mut Cursor<'_>| self.intersect_step(cursor),
        )
    }

    #[tactic(auto, using(sql_tree::proofs::Queries::term_is))]
    fn term(&self, cursor: &mut Cursor<'_>) -> Result<Boxed<SetTree>, Unread>
        requires sound { NestReads self.now.nest F.pre G.pre F.post G.post }
        requires below { length cursor.old ≤ self.now.nest.most }
        ensures given { spec.Reads result (spec.reading n.Term cursor.old) cursor.new }
        ensures fewer { IfOk result (λ _. length cursor.new < length cursor.old) }
    {
        let first = self.operand(cursor)?;
        let steps = self.intersections(cursor)?;
        Ok(set_chain(cursor.alloc(), first, steps)?)
    }

    #[tactic(auto, using(sql_tree::proofs::Queries::union_is))]
    fn union_step(&self, cursor: &mut Cursor<'_>) -> Result<SetStep, Unread>
        requires sound { NestReads self.now.nest F.pre G.pre F.post G.post }
        requires below { length cursor.old ≤ self.now.nest.most }
        ensures given { spec.Reads result (spec.reading n.UnionStep cursor.old) cursor.new }
        ensures fewer { IfOk result (λ _. length cursor.new < length cursor.old) }
    {
        let token = cursor.one(&[Sort::Union, Sort::Except])?;
        let word = set_word(token);
        let all = cursor.passes(Sort::All)?;
        let at = cursor.offset();
        let operand = self.term(cursor)?;
        Ok(SetStep {
            word,
            all,
            at,
            operand: operand.into_inner(),
        })
    }

    fn unions(&self, cursor: &mut Cursor<'_>) -> Result<List<SetStep>, Unread>
        requires sound { NestReads self.now.nest F.pre G.pre F.post G.post }
        requires below { length cursor.old ≤ self.now.nest.most }
        ensures given { spec.Reads result (piece.unions cursor.old) cursor.new }
        ensures fewer { IfOk result (λ _. length cursor.new ≤ length cursor.old) }
    {
        all_items(
            cursor,
            &[Sort::Union, Sort::Except],
            |cursor: &mut Cursor<'_>| self.union_step(cursor),
        )
    }

    fn unions_on(
        &self,
        cursor: &mut Cursor<'_>,
    ) -> Result<(List<SetStep>, (List<OrderTree>, Option<i64>)), Unread>
        requires sound { NestReads self.now.nest F.pre G.pre F.post G.post }
        requires below { length cursor.old ≤ self.now.nest.most }
        ensures given { spec.Reads result (piece.unions_on cursor.old) cursor.new }
        ensures fewer { IfOk result (λ _. length cursor.new ≤ length cursor.old) }
    {
        let steps = self.unions(cursor)?;
        let rest = cursor.ends()?;
        Ok((steps, rest))
    }

    fn query_rest(
        &self,
        cursor: &mut Cursor<'_>,
    ) -> Result<
        (
            List<SetStep>,
            (List<SetStep>, (List<OrderTree>, Option<i64>)),
        ),
        Unread,
    >
        requires sound { NestReads self.now.nest F.pre G.pre F.post G.post }
        requires below { length cursor.old ≤ self.now.nest.most }
        ensures given { spec.Reads result (piece.query_rest cursor.old) cursor.new }
        ensures fewer { IfOk result (λ _. length cursor.new ≤ length cursor.old) }
    {
        let steps = self.intersections(cursor)?;
        let rest = self.unions_on(cursor)?;
        Ok((steps, rest))
    }

    /// A query, whose inner queries are read by another function.
    #[tactic(auto, using(sql_tree::proofs::Queries::query_is))]
    pub fn query_body(&self, cursor: &mut Cursor<'_>) -> Result<Boxed<QueryTree>, Unread>
        requires sound { NestReads self.now.nest F.pre G.pre F.post G.post }
        requires below { length cursor.old ≤ self.now.nest.most }
        ensures given { spec.Reads result (spec.reading n.Query cursor.old) cursor.new }
        ensures fewer { IfOk result (λ _. length cursor.new < length cursor.old) }
    {
        let at = cursor.offset();
        let first = self.operand(cursor)?;
        let rest = self.query_rest(cursor)?;
        Ok(query_tree(cursor.alloc(), at, first, rest)?)
    }
}
