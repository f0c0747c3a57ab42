//! Literals, CAST, CASE, EXISTS, parentheses and functions.

ghost use Rattle.std.specs.Prelude.{◌≡◌, ◌<◌, ◌≤◌, [], ◌∷◌, length, IfOk};
ghost use Rattle.sql_tree.specs.grammar.Building as b;
ghost use Rattle.sql_primaries.specs.built.Calls as spelled;
ghost use Rattle.sql_tree.specs.grammar.Cursors as spec;
ghost use Rattle.sql_tree.specs.grammar.Lists.{all_of};
ghost use Rattle.sql_tree.specs.grammar.Nests.{NestReads};
ghost use Rattle.sql_tree.specs.grammar.Symbols as n;
ghost use Rattle.sql_tree.specs.declared.grammar.sort.Sort.TheVariants as s;

use crate::calls::column_of;
use crate::grammar::Primaries;
use perm_values::{Boxed, Kind, List, NoMemory};
use sql_lexer::Token;
use sql_tree::{
    ArmTree, Cursor, ExprBody, ExprTree, QueryTree, Sort, Unread, all_items, node, same_sort,
    sort_of,
};
use std::alloc::Global;

/// What a literal is.
pub const LITERALS: [Sort; 5] = [
    Sort::Digits,
    Sort::Literal,
    Sort::True,
    Sort::False,
    Sort::Null,
];

const CAST_KINDS: [Sort; 5] = [
    Sort::Boolean,
    Sort::Integer,
    Sort::Int,
    Sort::BigInt,
    Sort::Text,
];

/// The kind that a word names.
pub fn kind_of(token: &Token<'_>) -> Kind
    ensures { result ≡ b.kind_of token.now }
{
    let sort = sort_of(token);
    if same_sort(sort, Sort::Text) {
        Kind::Text
    } else if same_sort(sort, Sort::Boolean) {
        Kind::Boolean
    } else {
        Kind::Integer
    }
}

fn literal_of(alloc: Global, token: &Token<'_>) -> Result<ExprBody, NoMemory>
    ensures { IfOk result (λ body. body ≡ b.literal_of token.now) }
{
    let sort = sort_of(token);
    if same_sort(sort, Sort::Digits) {
        Ok(ExprBody::Integer(token.number()))
    } else if same_sort(sort, Sort::Literal) {
        Ok(ExprBody::Text(token.spelled(alloc)?))
    } else if same_sort(sort, Sort::True) {
        Ok(ExprBody::Truth(true))
    } else if same_sort(sort, Sort::False) {
        Ok(ExprBody::Truth(false))
    } else {
        Ok(ExprBody::Null)
    }
}

/// A literal.
#[tactic(auto, using(sql_tree::proofs::Steps::literal_is))]
pub fn literal(cursor: &mut Cursor<'_>) -> Result<ExprBody, Unread>
    ensures given { spec.Reads result (spec.reading n.Literal cursor.old) cursor.new }
    ensures fewer { IfOk result (λ _. length cursor.new < length cursor.old) }
{
    let token = cursor.one(&LITERALS)?;
    Ok(literal_of(cursor.alloc(), token)?)
}

#[tactic(auto, using(sql_tree::proofs::Steps::cast_kind_is))]
fn cast_kind(cursor: &mut Cursor<'_>) -> Result<Kind, Unread>
    ensures given { spec.Reads result (spec.reading n.CastKind cursor.old) cursor.new }
    ensures fewer { IfOk result (λ _. length cursor.new < length cursor.old) }
{
    Ok(kind_of(cursor.one(&CAST_KINDS)?))
}

#[tactic(auto, using(sql_tree::proofs::Steps::cast_is))]
fn cast(cursor: &mut Cursor<'_>) -> Result<ExprBody, Unread>
    ensures given { spec.Reads result (spec.reading n.Cast cursor.old) cursor.new }
    ensures fewer { IfOk result (λ _. length cursor.new < length cursor.old) }
{
    cursor.past(Sort::Cast)?;
    cursor.past(Sort::Opening)?;
    cursor.past(Sort::Null)?;
    cursor.past(Sort::As)?;
    let kind = cast_kind(cursor)?;
    cursor.past(Sort::Closing)?;
    Ok(ExprBody::NullOf(kind))
}

impl<
    F: Fn(&mut Cursor<'_>) -> Result<Boxed<ExprTree>, Unread>,
    G: Fn(&mut Cursor<'_>) -> Result<Boxed<QueryTree>, Unread>,
> Primaries<F, G> {
    #[tactic(auto, using(crate::proofs::Pairs::arm_is))]
    fn arm(&self, cursor: &mut Cursor<'_>) -> Result<ArmTree, Unread>
        requires sound { NestReads self.now.nest F.pre G.pre F.post G.post }
        requires below { length cursor.old ≤ self.now.nest.most }
        ensures given { spec.Reads result (spec.reading n.Arm cursor.old) cursor.new }
        ensures fewer { IfOk result (λ _. length cursor.new < length cursor.old) }
    {
        cursor.past(Sort::When)?;
        let (condition, value) = self.pair(cursor, Sort::Then)?;
        Ok(ArmTree {
            condition: condition.into_inner(),
            value: value.into_inner(),
        })
    }

    fn more_arms(&self, cursor: &mut Cursor<'_>) -> Result<List<ArmTree>, Unread>
        requires sound { NestReads self.now.nest F.pre G.pre F.post G.post }
        requires below { length cursor.old ≤ self.now.nest.most }
        ensures given { spec.Reads result
            (all_of (s.When ∷ []) (spec.reading n.Arm) cursor.old) cursor.new }
        ensures fewer { IfOk result (λ _. length cursor.new ≤ length cursor.old) }
    {
        all_items(
            cursor,
            &[Sort::When],
            |cursor: &mut Cursor<'_>| self.arm(cursor),
        )
    }

    fn arms(&self, cursor: &mut Cursor<'_>) -> Result<List<ArmTree>, Unread>
        requires sound { NestReads self.now.nest F.pre G.pre F.post G.post }
        requires below { length cursor.old ≤ self.now.nest.most }
        ensures given { spec.Reads result (spelled.arms cursor.old) cursor.new }
        ensures fewer { IfOk result (λ _. length cursor.new < length cursor.old) }
    {
        let mut arms = List::new(cursor.alloc());
        arms.push(self.arm(cursor)?)?;
        arms.append(self.more_arms(cursor)?)?;
        Ok(arms)
    }

    #[tactic(auto, using(sql_tree::proofs::Steps::otherwise_is))]
    fn otherwise(&self, cursor: &mut Cursor<'_>) -> Result<Option<Boxed<ExprTree>>, Unread>
        requires sound { NestReads self.now.nest F.pre G.pre F.post G.post }
        requires below { length cursor.old ≤ self.now.nest.most }
        ensures given { spec.Reads result (spec.reading n.Otherwise cursor.old) cursor.new }
        ensures fewer { IfOk result (λ _. length cursor.new ≤ length cursor.old) }
    {
        if !cursor.sees(Sort::Else) {
            return Ok(None);
        }
        cursor.past(Sort::Else)?;
        Ok(Some(self.nest.expression(cursor)?))
    }

    #[tactic(auto, using(crate::proofs::PrimariesRead::case_is))]
    fn case(&self, cursor: &mut Cursor<'_>) -> Result<ExprBody, Unread>
        requires sound { NestReads self.now.nest F.pre G.pre F.post G.post }
        requires below { length cursor.old ≤ self.now.nest.most }
        ensures given { spec.Reads result (spec.reading n.Case cursor.old) cursor.new }
        ensures fewer { IfOk result (λ _. length cursor.new < length cursor.old) }
    {
        cursor.past(Sort::Case)?;
        let arms = self.arms(cursor)?;
        let otherwise = self.otherwise(cursor)?;
        cursor.value_before(ExprBody::Case { arms, otherwise }, Sort::End)
    }

    #[tactic(auto, using(sql_tree::proofs::Steps::exists_is))]
    fn exists(&self, cursor: &mut Cursor<'_>) -> Result<ExprBody, Unread>
        requires sound { NestReads self.now.nest F.pre G.pre F.post G.post }
        requires below { length cursor.old ≤ self.now.nest.most }
        ensures given { spec.Reads result (spec.reading n.Exists cursor.old) cursor.new }
        ensures fewer { IfOk result (λ _. length cursor.new < length cursor.old) }
    {
        cursor.past(Sort::Exists)?;
        Ok(ExprBody::Exists(self.nest.in_parentheses(cursor)?))
    }

    fn inside(&self, cursor: &mut Cursor<'_>) -> Result<ExprBody, Unread>
        requires sound { NestReads self.now.nest F.pre G.pre F.post G.post }
        requires below { length cursor.old < self.now.nest.most }
        ensures given { spec.Reads result (spelled.inside cursor.old) cursor.new }
        ensures fewer { IfOk result (λ _. length cursor.new < length cursor.old) }
    {
        if cursor.sees(Sort::Select) {
            Ok(ExprBody::Scalar(self.nest.inner(cursor)?))
        } else {
            Ok(ExprBody::Paren(self.nest.expression(cursor)?))
        }
    }

    #[tactic(auto, using(crate::proofs::PrimariesRead::parentheses_is))]
    fn parentheses(&self, cursor: &mut Cursor<'_>) -> Result<ExprBody, Unread>
        requires sound { NestReads self.now.nest F.pre G.pre F.post G.post }
        requires below { length cursor.old ≤ self.now.nest.most }
        ensures given { spec.Reads result (spec.reading n.Parentheses cursor.old) cursor.new }
        ensures fewer { IfOk result (λ _. length cursor.new < length cursor.old) }
    {
        cursor.past(Sort::Opening)?;
        let body = self.inside(cursor)?;
        cursor.value_before(body, Sort::Closing)
    }

    fn body(&self, cursor: &mut Cursor<'_>) -> Result<ExprBody, Unread>
        requires sound { NestReads self.now.nest F.pre G.pre F.post G.post }
        requires below { length cursor.old ≤ self.now.nest.most }
        ensures given { spec.Reads result (spelled.primary_body cursor.old) cursor.new }
        ensures fewer { IfOk result (λ _. length cursor.new < length cursor.old) }
    {
        if cursor.sees_any(&LITERALS) {
            literal(cursor)
        } else if cursor.sees(Sort::Cast) {
            cast(cursor)
        } else if cursor.sees(Sort::Case) {
            self.case(cursor)
        } else if cursor.sees(Sort::Exists) {
            self.exists(cursor)
        } else if cursor.sees(Sort::Opening) {
            self.parentheses(cursor)
        } else if cursor.sees(Sort::Count) {
            self.count(cursor)
        } else if cursor.sees_any(&[Sort::Sum, Sort::Min, Sort::Max]) {
            self.aggregate(cursor)
        } else if cursor.sees(Sort::Coalesce) {
            self.coalesce(cursor)
        } else if cursor.sees(Sort::NullIf) {
            self.null_if(cursor)
        } else {
            column_of(cursor)
        }
    }

    #[tactic(auto, using(crate::proofs::PrimariesRead::primary_is))]
    pub fn primary(&self, cursor: &mut Cursor<'_>) -> Result<Boxed<ExprTree>, Unread>
        requires sound { NestReads self.now.nest F.pre G.pre F.post G.post }
        requires below { length cursor.old ≤ self.now.nest.most }
        ensures given { spec.Reads result (spec.reading n.Primary cursor.old) cursor.new }
        ensures fewer { IfOk result (λ _. length cursor.new < length cursor.old) }
    {
        let at = cursor.offset();
        let body = self.body(cursor)?;
        Ok(node(cursor.alloc(), at, body)?)
    }
}
