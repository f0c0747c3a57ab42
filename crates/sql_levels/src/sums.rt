//! Arithmetic.

ghost use Rattle.std.specs.Prelude.{◌≡◌, ◌<◌, ◌≤◌, [], ◌∷◌, length, IfOk};
ghost use Rattle.sql_tree.specs.grammar.Building as b;
ghost use Rattle.sql_tree.specs.grammar.Cursors as spec;
ghost use Rattle.sql_tree.specs.grammar.Lists.{all_of};
ghost use Rattle.sql_tree.specs.grammar.Nests.{ReadsUpTo};
ghost use Rattle.sql_tree.specs.grammar.Symbols as n;
ghost use Rattle.sql_tree.specs.declared.grammar.sort.Sort.TheVariants as s;

use crate::words::words;
use null_logic::Arith;
use perm_values::{Boxed, List, NoMemory};
use sql_lexer::Token;
use sql_tree::{
    Cursor, ExprBody, ExprStep, ExprTree, Sort, Unread, all_items, node, same_sort, sort_of,
};
use std::alloc::Global;

fn arith_of(token: &Token<'_>) -> Arith
    ensures { result ≡ b.arith_of token.now }
{
    let sort = sort_of(token);
    if same_sort(sort, Sort::Plus) {
        Arith::Add
    } else if same_sort(sort, Sort::Minus) {
        Arith::Subtract
    } else if same_sort(sort, Sort::Star) {
        Arith::Multiply
    } else if same_sort(sort, Sort::Slash) {
        Arith::Divide
    } else {
        Arith::Remainder
    }
}

/// The chain of the steps behind the first part; without steps the part itself.
fn chain(
    alloc: Global,
    first: Boxed<ExprTree>,
    steps: List<ExprStep>,
) -> Result<Boxed<ExprTree>, NoMemory>
    ensures { IfOk result (λ tree. tree ≡ b.chain (first, steps)) }
{
    if steps.is_empty() {
        return Ok(first);
    }
    let at = first.get().at;
    node(alloc, at, ExprBody::Chain { first, steps })
}

/// The part under as many signs; none leave it as it is.
fn signed(
    alloc: Global,
    at: usize,
    count: u64,
    part: Boxed<ExprTree>,
) -> Result<Boxed<ExprTree>, NoMemory>
    ensures { IfOk result (λ tree. tree ≡ b.signed at count part) }
{
    if count == 0 {
        return Ok(part);
    }
    node(alloc, at, ExprBody::Signs { count, part })
}

/// Arithmetic, over what reads a primary where no more than `most` tokens are left.
#[derive(Clone, Copy)]
pub struct Sums<P> {
    pub primary: P,
    pub most: usize,
}

impl<P: Fn(&mut Cursor<'_>) -> Result<Boxed<ExprTree>, Unread>> Sums<P> {
    fn part(&self, cursor: &mut Cursor<'_>) -> Result<Boxed<ExprTree>, Unread>
        requires sound { ReadsUpTo self.now.most n.Primary
            (P.pre self.now.primary) (P.post self.now.primary) }
        requires below { length cursor.old ≤ self.now.most }
        ensures given { spec.Reads result (spec.reading n.Primary cursor.old) cursor.new }
        ensures fewer { IfOk result (λ _. length cursor.new < length cursor.old) }
    {
        (self.primary)(cursor)
    }

    #[tactic(auto, using(crate::proofs::Counts::sign_is))]
    fn sign(&self, cursor: &mut Cursor<'_>) -> Result<Boxed<ExprTree>, Unread>
        requires sound { ReadsUpTo self.now.most n.Primary
            (P.pre self.now.primary) (P.post self.now.primary) }
        requires below { length cursor.old ≤ self.now.most }
        ensures given { spec.Reads result (spec.reading n.Sign cursor.old) cursor.new }
        ensures fewer { IfOk result (λ _. length cursor.new < length cursor.old) }
    {
        let at = cursor.offset();
        let minuses = words(cursor, Sort::Minus)?;
        let part = self.part(cursor)?;
        Ok(signed(cursor.alloc(), at, minuses.len() as u64, part)?)
    }

    #[tactic(auto, using(sql_tree::proofs::Steps::product_step_is))]
    fn product_step(&self, cursor: &mut Cursor<'_>) -> Result<ExprStep, Unread>
        requires sound { ReadsUpTo self.now.most n.Primary
            (P.pre self.now.primary) (P.post self.now.primary) }
        requires below { length cursor.old ≤ self.now.most }
        ensures given { spec.Reads result (spec.reading n.ProductStep cursor.old) cursor.new }
        ensures fewer { IfOk result (λ _. length cursor.new < length cursor.old) }
    {
        let token = cursor.one(&[Sort::Star, Sort::Slash, Sort::Percent])?;
        let op = arith_of(token);
        let part = self.sign(cursor)?;
        Ok(ExprStep {
            op,
            part: part.into_inner(),
        })
    }

    fn product_steps(&self, cursor: &mut Cursor<'_>) -> Result<List<ExprStep>, Unread>
        requires sound { ReadsUpTo self.now.most n.Primary
            (P.pre self.now.primary) (P.post self.now.primary) }
        requires below { length cursor.old ≤ self.now.most }
        ensures given { spec.Reads result
            (all_of (s.Star ∷ s.Slash ∷ s.Percent ∷ []) (spec.reading n.ProductStep) cursor.old) cursor.new }
        ensures fewer { IfOk result (λ _. length cursor.new ≤ length cursor.old) }
    {
        all_items(
            cursor,
            &[Sort::Star, Sort::Slash, Sort::Percent],
            |cursor: &mut Cursor<'_>| self.product_step(cursor),
        )
    }

    #[tactic(auto, using(sql_tree::proofs::Steps::product_is))]
    fn product(&self, cursor: &mut Cursor<'_>) -> Result<Boxed<ExprTree>, Unread>
        requires sound { ReadsUpTo self.now.most n.Primary
            (P.pre self.now.primary) (P.post self.now.primary) }
        requires below { length cursor.old ≤ self.now.most }
        ensures given { spec.Reads result (spec.reading n.Product cursor.old) cursor.new }
        ensures fewer { IfOk result (λ _. length cursor.new < length cursor.old) }
    {
        let first = self.sign(cursor)?;
        let steps = self.product_steps(cursor)?;
        Ok(chain(cursor.alloc(), first, steps)?)
    }

    #[tactic(auto, using(sql_tree::proofs::Steps::sum_step_is))]
    fn sum_step(&self, cursor: &mut Cursor<'_>) -> Result<ExprStep, Unread>
        requires sound { ReadsUpTo self.now.most n.Primary
            (P.pre self.now.primary) (P.post self.now.primary) }
        requires below { length cursor.old ≤ self.now.most }
        ensures given { spec.Reads result (spec.reading n.SumStep cursor.old) cursor.new }
        ensures fewer { IfOk result (λ _. length cursor.new < length cursor.old) }
    {
        let token = cursor.one(&[Sort::Plus, Sort::Minus])?;
        let op = arith_of(token);
        let part = self.product(cursor)?;
        Ok(ExprStep {
            op,
            part: part.into_inner(),
        })
    }

    fn sum_steps(&self, cursor: &mut Cursor<'_>) -> Result<List<ExprStep>, Unread>
        requires sound { ReadsUpTo self.now.most n.Primary
            (P.pre self.now.primary) (P.post self.now.primary) }
        requires below { length cursor.old ≤ self.now.most }
        ensures given { spec.Reads result
            (all_of (s.Plus ∷ s.Minus ∷ []) (spec.reading n.SumStep) cursor.old) cursor.new }
        ensures fewer { IfOk result (λ _. length cursor.new ≤ length cursor.old) }
    {
        all_items(
            cursor,
            &[Sort::Plus, Sort::Minus],
            |cursor: &mut Cursor<'_>| { self.sum_step(cursor) },
        )
    }

    #[tactic(auto, using(sql_tree::proofs::Steps::sum_is))]
    pub fn sum(&self, cursor: &mut Cursor<'_>) -> Result<Boxed<ExprTree>, Unread>
        requires sound { ReadsUpTo self.now.most n.Primary
            (P.pre self.now.primary) (P.post self.now.primary) }
        requires below { length cursor.old ≤ self.now.most }
        ensures given { spec.Reads result (spec.reading n.Sum cursor.old) cursor.new }
        ensures fewer { IfOk result (λ _. length cursor.new < length cursor.old) }
    {
        let first = self.product(cursor)?;
        let steps = self.sum_steps(cursor)?;
        Ok(chain(cursor.alloc(), first, steps)?)
    }
}
