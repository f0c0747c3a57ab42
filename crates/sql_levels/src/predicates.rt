//! Comparisons and the other predicates.

ghost use Rattle.std.specs.Prelude.{◌≡◌, ◌<◌, ◌≤◌, length, IfOk};
ghost use Rattle.sql_tree.specs.grammar.Building as b;
ghost use Rattle.sql_tree.specs.grammar.Cursors as spec;
ghost use Rattle.sql_tree.specs.grammar.Nests.{NestReads, ReadsUpTo};
ghost use Rattle.sql_tree.specs.grammar.Symbols as n;
ghost use Rattle.sql_levels.specs.built.Tails as tails;
ghost use Rattle.sql_tree.specs.declared.grammar.sort.Sort.TheVariants as s;

use crate::tail::Tail;
use null_logic::{Compare, Truth};
use perm_values::Boxed;
use sql_lexer::Token;
use sql_tree::{Cursor, ExprTree, Nest, QueryTree, Sort, Unread, same_sort, sort_of};

const TRUTHS: [Sort; 3] = [Sort::True, Sort::False, Sort::Unknown];

const COMPARISONS: [Sort; 6] = [
    Sort::Equal,
    Sort::NotEqual,
    Sort::Less,
    Sort::LessEqual,
    Sort::Greater,
    Sort::GreaterEqual,
];

const QUANTIFIERS: [Sort; 3] = [Sort::Any, Sort::Some, Sort::All];

const RANGES: [Sort; 4] = [Sort::Not, Sort::Like, Sort::Between, Sort::In];

fn truth_of(token: &Token<'_>) -> Truth
    ensures { result ≡ b.truth_of token.now }
{
    let sort = sort_of(token);
    if same_sort(sort, Sort::True) {
        Truth::True
    } else if same_sort(sort, Sort::False) {
        Truth::False
    } else {
        Truth::Unknown
    }
}

fn comparison_of(token: &Token<'_>) -> Compare
    ensures { result ≡ b.comparison_of token.now }
{
    let sort = sort_of(token);
    if same_sort(sort, Sort::Equal) {
        Compare::Equal
    } else if same_sort(sort, Sort::NotEqual) {
        Compare::NotEqual
    } else if same_sort(sort, Sort::Less) {
        Compare::Less
    } else if same_sort(sort, Sort::LessEqual) {
        Compare::LessEqual
    } else if same_sort(sort, Sort::Greater) {
        Compare::Greater
    } else {
        Compare::GreaterEqual
    }
}

fn is_all(token: &Token<'_>) -> bool
    ensures { result ≡ b.is token.now s.All }
{
    same_sort(sort_of(token), Sort::All)
}

fn null_tail(cursor: &mut Cursor<'_>) -> Result<Tail, Unread>
    ensures given { spec.Reads result (tails.null_tail cursor.old) cursor.new }
    ensures fewer { IfOk result (λ _. length cursor.new < length cursor.old) }
{
    cursor.one(&[Sort::Null])?;
    Ok(Tail::Null)
}

fn truth_tail(cursor: &mut Cursor<'_>) -> Result<Tail, Unread>
    ensures given { spec.Reads result (tails.truth_tail cursor.old) cursor.new }
    ensures fewer { IfOk result (λ _. length cursor.new < length cursor.old) }
{
    Ok(Tail::Truth(truth_of(cursor.one(&TRUTHS)?)))
}

/// Predicates, over what reads a sum, and what reads expressions and queries in parentheses.
#[derive(Clone, Copy)]
pub struct Predicates<S, F, G> {
    pub sum: S,
    pub nest: Nest<F, G>,
}

impl<
    S: Fn(&mut Cursor<'_>) -> Result<Boxed<ExprTree>, Unread>,
    F: Fn(&mut Cursor<'_>) -> Result<Boxed<ExprTree>, Unread>,
    G: Fn(&mut Cursor<'_>) -> Result<Boxed<QueryTree>, Unread>,
> Predicates<S, F, G> {
    fn operand(&self, cursor: &mut Cursor<'_>) -> Result<Boxed<ExprTree>, Unread>
        requires sums { ReadsUpTo self.now.nest.most n.Sum (S.pre self.now.sum) (S.post self.now.sum) }
        requires below { length cursor.old ≤ self.now.nest.most }
        ensures given { spec.Reads result (spec.reading n.Sum cursor.old) cursor.new }
        ensures fewer { IfOk result (λ _. length cursor.new < length cursor.old) }
    {
        (self.sum)(cursor)
    }

    fn distinct_tail(&self, cursor: &mut Cursor<'_>) -> Result<Tail, Unread>
        requires sums { ReadsUpTo self.now.nest.most n.Sum (S.pre self.now.sum) (S.post self.now.sum) }
        requires sound { NestReads self.now.nest F.pre G.pre F.post G.post }
        requires below { length cursor.old ≤ self.now.nest.most }
        ensures given { spec.Reads result (tails.distinct_tail cursor.old) cursor.new }
        ensures fewer { IfOk result (λ _. length cursor.new < length cursor.old) }
    {
        cursor.past(Sort::Distinct)?;
        cursor.past(Sort::From)?;
        let second = self.compared(cursor)?;
        Ok(Tail::Distinct(second))
    }

    /// What stands behind IS and NOT.
    fn is_tail(&self, cursor: &mut Cursor<'_>) -> Result<Tail, Unread>
        requires sums { ReadsUpTo self.now.nest.most n.Sum (S.pre self.now.sum) (S.post self.now.sum) }
        requires sound { NestReads self.now.nest F.pre G.pre F.post G.post }
        requires below { length cursor.old ≤ self.now.nest.most }
        ensures given { spec.Reads result (tails.is_tail cursor.old) cursor.new }
        ensures fewer { IfOk result (λ _. length cursor.new < length cursor.old) }
    {
        if cursor.sees(Sort::Null) {
            null_tail(cursor)
        } else if cursor.sees_any(&TRUTHS) {
            truth_tail(cursor)
        } else {
            self.distinct_tail(cursor)
        }
    }

    #[tactic(auto, using(crate::proofs::Comparing::is_test_is))]
    fn is_test(&self, cursor: &mut Cursor<'_>) -> Result<(bool, Tail), Unread>
        requires sums { ReadsUpTo self.now.nest.most n.Sum (S.pre self.now.sum) (S.post self.now.sum) }
        requires sound { NestReads self.now.nest F.pre G.pre F.post G.post }
        requires below { length cursor.old ≤ self.now.nest.most }
        ensures given { spec.Sees tails.behind result (spec.reading n.IsTest cursor.old) cursor.new }
        ensures fewer { IfOk result (λ _. length cursor.new < length cursor.old) }
    {
        cursor.past(Sort::Is)?;
        let negated = cursor.passes(Sort::Not)?;
        let tail = self.is_tail(cursor)?;
        Ok((negated, tail))
    }

    #[tactic(auto, using(sql_tree::proofs::Steps::test_is))]
    pub fn test(&self, cursor: &mut Cursor<'_>) -> Result<Boxed<ExprTree>, Unread>
        requires sums { ReadsUpTo self.now.nest.most n.Sum (S.pre self.now.sum) (S.post self.now.sum) }
        requires sound { NestReads self.now.nest F.pre G.pre F.post G.post }
        requires below { length cursor.old ≤ self.now.nest.most }
        ensures given { spec.Reads result (spec.reading n.Test cursor.old) cursor.new }
        ensures fewer { IfOk result (λ _. length cursor.new < length cursor.old) }
    {
        let part = self.compared(cursor)?;
        if !cursor.sees(Sort::Is) {
            return Ok(part);
        }
        let (negated, tail) = self.is_test(cursor)?;
        Ok(tail.on(cursor.alloc(), negated, part)?)
    }

    fn quantified(&self, cursor: &mut Cursor<'_>, op: Compare) -> Result<Tail, Unread>
        requires sound { NestReads self.now.nest F.pre G.pre F.post G.post }
        requires below { length cursor.old ≤ self.now.nest.most }
        ensures given { spec.Reads result (tails.quantified op cursor.old) cursor.new }
        ensures fewer { IfOk result (λ _. length cursor.new < length cursor.old) }
    {
        let every = is_all(cursor.one(&QUANTIFIERS)?);
        let query = self.nest.in_parentheses(cursor)?;
        Ok(Tail::Quantified { every, op, query })
    }

    fn second(&self, cursor: &mut Cursor<'_>, op: Compare) -> Result<Tail, Unread>
        requires sums { ReadsUpTo self.now.nest.most n.Sum (S.pre self.now.sum) (S.post self.now.sum) }
        requires sound { NestReads self.now.nest F.pre G.pre F.post G.post }
        requires below { length cursor.old ≤ self.now.nest.most }
        ensures given { spec.Reads result (tails.second op cursor.old) cursor.new }
        ensures fewer { IfOk result (λ _. length cursor.new < length cursor.old) }
    {
        let second = self.ranged(cursor)?;
        Ok(Tail::Compared { op, second })
    }

    #[tactic(auto, using(crate::proofs::Comparing::comparison_is))]
    fn comparison(&self, cursor: &mut Cursor<'_>) -> Result<Tail, Unread>
        requires sums { ReadsUpTo self.now.nest.most n.Sum (S.pre self.now.sum) (S.post self.now.sum) }
        requires sound { NestReads self.now.nest F.pre G.pre F.post G.post }
        requires below { length cursor.old ≤ self.now.nest.most }
        ensures given { spec.Sees tails.compared result (spec.reading n.Comparison cursor.old) cursor.new }
        ensures fewer { IfOk result (λ _. length cursor.new < length cursor.old) }
    {
        let op = comparison_of(cursor.one(&COMPARISONS)?);
        if cursor.sees_any(&QUANTIFIERS) {
            self.quantified(cursor, op)
        } else {
            self.second(cursor, op)
        }
    }

    #[tactic(auto, using(sql_tree::proofs::Steps::compared_is))]
    fn compared(&self, cursor: &mut Cursor<'_>) -> Result<Boxed<ExprTree>, Unread>
        requires sums { ReadsUpTo self.now.nest.most n.Sum (S.pre self.now.sum) (S.post self.now.sum) }
        requires sound { NestReads self.now.nest F.pre G.pre F.post G.post }
        requires below { length cursor.old ≤ self.now.nest.most }
        ensures given { spec.Reads result (spec.reading n.Compared cursor.old) cursor.new }
        ensures fewer { IfOk result (λ _. length cursor.new < length cursor.old) }
    {
        let part = self.ranged(cursor)?;
        if !cursor.sees_any(&COMPARISONS) {
            return Ok(part);
        }
        let tail = self.comparison(cursor)?;
        Ok(tail.on(cursor.alloc(), false, part)?)
    }

    fn among(&self, cursor: &mut Cursor<'_>) -> Result<Tail, Unread>
        requires sound { NestReads self.now.nest F.pre G.pre F.post G.post }
        requires below { length cursor.old < self.now.nest.most }
        ensures given { spec.Sees tails.ranged result (tails.among cursor.old) cursor.new }
        ensures fewer { IfOk result (λ _. length cursor.new < length cursor.old) }
    {
        if cursor.sees(Sort::Select) {
            Ok(Tail::InQuery(self.nest.inner(cursor)?))
        } else {
            Ok(Tail::InList(self.nest.expressions(cursor)?))
        }
    }

    #[tactic(auto, using(crate::proofs::Comparing::members_is))]
    fn members(&self, cursor: &mut Cursor<'_>) -> Result<Tail, Unread>
        requires sound { NestReads self.now.nest F.pre G.pre F.post G.post }
        requires below { length cursor.old ≤ self.now.nest.most }
        ensures given { spec.Sees tails.ranged result (spec.reading n.Members cursor.old) cursor.new }
        ensures fewer { IfOk result (λ _. length cursor.new < length cursor.old) }
    {
        cursor.past(Sort::Opening)?;
        let tail = self.among(cursor)?;
        match cursor.past(Sort::Closing) {
            Ok(()) => Ok(tail),
            Err(unread) => {
                drop(tail);
                Err(unread)
            }
        }
    }

    fn like(&self, cursor: &mut Cursor<'_>) -> Result<Tail, Unread>
        requires sums { ReadsUpTo self.now.nest.most n.Sum (S.pre self.now.sum) (S.post self.now.sum) }
        requires below { length cursor.old ≤ self.now.nest.most }
        ensures given { spec.Sees tails.ranged result (tails.like cursor.old) cursor.new }
        ensures fewer { IfOk result (λ _. length cursor.new < length cursor.old) }
    {
        cursor.past(Sort::Like)?;
        Ok(Tail::Like(self.operand(cursor)?))
    }

    fn bounds(&self, cursor: &mut Cursor<'_>) -> Result<Tail, Unread>
        requires sums { ReadsUpTo self.now.nest.most n.Sum (S.pre self.now.sum) (S.post self.now.sum) }
        requires below { length cursor.old ≤ self.now.nest.most }
        ensures given { spec.Sees tails.ranged result (tails.bounds cursor.old) cursor.new }
        ensures fewer { IfOk result (λ _. length cursor.new < length cursor.old) }
    {
        cursor.past(Sort::Between)?;
        let low = self.operand(cursor)?;
        cursor.past(Sort::And)?;
        let high = self.operand(cursor)?;
        Ok(Tail::Between { low, high })
    }

    fn within(&self, cursor: &mut Cursor<'_>) -> Result<Tail, Unread>
        requires sound { NestReads self.now.nest F.pre G.pre F.post G.post }
        requires below { length cursor.old ≤ self.now.nest.most }
        ensures given { spec.Sees tails.ranged result (tails.within cursor.old) cursor.new }
        ensures fewer { IfOk result (λ _. length cursor.new < length cursor.old) }
    {
        cursor.past(Sort::In)?;
        self.members(cursor)
    }

    #[tactic(auto, using(crate::proofs::Comparing::range_is))]
    fn range(&self, cursor: &mut Cursor<'_>) -> Result<Tail, Unread>
        requires sums { ReadsUpTo self.now.nest.most n.Sum (S.pre self.now.sum) (S.post self.now.sum) }
        requires sound { NestReads self.now.nest F.pre G.pre F.post G.post }
        requires below { length cursor.old ≤ self.now.nest.most }
        ensures given { spec.Sees tails.ranged result (spec.reading n.Range cursor.old) cursor.new }
        ensures fewer { IfOk result (λ _. length cursor.new < length cursor.old) }
    {
        if cursor.sees(Sort::Like) {
            self.like(cursor)
        } else if cursor.sees(Sort::Between) {
            self.bounds(cursor)
        } else {
            self.within(cursor)
        }
    }

    #[tactic(auto, using(crate::proofs::Comparing::ranged_is))]
    fn ranged(&self, cursor: &mut Cursor<'_>) -> Result<Boxed<ExprTree>, Unread>
        requires sums { ReadsUpTo self.now.nest.most n.Sum (S.pre self.now.sum) (S.post self.now.sum) }
        requires sound { NestReads self.now.nest F.pre G.pre F.post G.post }
        requires below { length cursor.old ≤ self.now.nest.most }
        ensures given { spec.Reads result (spec.reading n.Ranged cursor.old) cursor.new }
        ensures fewer { IfOk result (λ _. length cursor.new < length cursor.old) }
    {
        let part = self.operand(cursor)?;
        if !cursor.sees_any(&RANGES) {
            return Ok(part);
        }
        let negated = cursor.passes(Sort::Not)?;
        let tail = self.range(cursor)?;
        Ok(tail.on(cursor.alloc(), negated, part)?)
    }
}
