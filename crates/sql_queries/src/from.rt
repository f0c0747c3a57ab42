//! FROM and its joins (ISO/IEC 9075-2, 'table reference').

ghost use Rattle.std.specs.Prelude.{◌≡◌, ◌<◌, ◌≤◌, length, IfOk};
ghost use Rattle.sql_tree.specs.grammar.Building as b;
ghost use Rattle.sql_tree.specs.grammar.Cursors as spec;
ghost use Rattle.sql_tree.specs.grammar.Nests.{NestReads};
ghost use Rattle.sql_tree.specs.grammar.built.Pieces as piece;
ghost use Rattle.sql_tree.specs.grammar.Symbols as n;
ghost use Rattle.sql_queries.specs.built.Sources as spelled;

use crate::grammar::Queries;
use perm_values::{Boxed, List, NoMemory};
use sql_lexer::Token;
use sql_tree::{
    Cursor, ExprTree, FromItem, FromSource, FromTree, JoinStep, JoinWord, NAMES, Name, QueryTree,
    ScopeMark, Sort, Unread, all_items, list_of, same_sort, sort_of,
};
use std::alloc::Global;

/// The name of an inner query, behind the parenthesis that closes it.
fn name_behind(cursor: &mut Cursor<'_>) -> Result<Name, Unread>
    ensures given { spec.Reads result (spelled.name_behind cursor.old) cursor.new }
    ensures fewer { IfOk result (λ _. length cursor.new < length cursor.old) }
{
    cursor.past(Sort::Closing)?;
    cursor.passes(Sort::As)?;
    cursor.name()
}

/// An item of FROM, which was read before, with the mark behind it.
fn marked(
    cursor: &mut Cursor<'_>,
    at: usize,
    aliased: (FromSource, Option<Name>),
) -> Result<Boxed<FromItem>, Unread>
    ensures given { spec.Reads result (spelled.marked at aliased cursor.old) cursor.new }
    ensures fewer { IfOk result (λ _. length cursor.new ≤ length cursor.old) }
{
    let mark = cursor.mark()?;
    let (source, alias) = aliased;
    let item = FromItem {
        at,
        source,
        alias,
        mark,
    };
    Ok(Boxed::new(cursor.alloc(), item)?)
}

/// Whether LATERAL stands next and is no name: a parenthesis follows it.
fn sees_lateral(cursor: &Cursor<'_>) -> bool
    ensures { result ≡ spelled.sees_lateral cursor.now }
{
    cursor.sees_pair(&[Sort::Lateral], &[Sort::Opening])
}

/// An item of FROM that has no mark.
fn unmarked(
    alloc: Global,
    at: usize,
    aliased: (FromSource, Option<Name>),
) -> Result<Boxed<FromItem>, NoMemory>
    ensures { IfOk result (λ item. item ≡ spelled.unmarked at aliased) }
{
    let (source, alias) = aliased;
    let item = FromItem {
        at,
        source,
        alias,
        mark: ScopeMark::Plain,
    };
    Boxed::new(alloc, item)
}

/// A join without a condition.
fn joined_freely(word: JoinWord, item: Boxed<FromItem>) -> JoinStep
    ensures { result ≡ b.joined_freely word item }
{
    JoinStep {
        word,
        item: item.into_inner(),
        condition: None,
    }
}

impl<
    F: Fn(&mut Cursor<'_>) -> Result<Boxed<ExprTree>, Unread>,
    G: Fn(&mut Cursor<'_>) -> Result<Boxed<QueryTree>, Unread>,
> Queries<F, G> {
    #[tactic(auto, using(crate::proofs::Parts::inner_source_is))]
    fn inner_source(&self, cursor: &mut Cursor<'_>) -> Result<(FromSource, Option<Name>), Unread>
        requires sound { NestReads self.now.nest F.pre G.pre F.post G.post }
        requires below { length cursor.old ≤ self.now.nest.most }
        ensures given { spec.Reads result (piece.inner_source cursor.old) cursor.new }
        ensures fewer { IfOk result (λ _. length cursor.new < length cursor.old) }
    {
        cursor.past(Sort::Opening)?;
        let query = self.nest.nested_query(cursor)?;
        let name = name_behind(cursor)?;
        Ok((FromSource::Inner(query), Some(name)))
    }

    #[tactic(auto, using(sql_tree::proofs::Queries::aliased_is))]
    fn aliased(&self, cursor: &mut Cursor<'_>) -> Result<(FromSource, Option<Name>), Unread>
        requires sound { NestReads self.now.nest F.pre G.pre F.post G.post }
        requires below { length cursor.old ≤ self.now.nest.most }
        ensures given { spec.Reads result (spec.reading n.Aliased cursor.old) cursor.new }
        ensures fewer { IfOk result (λ _. length cursor.new < length cursor.old) }
    {
        if cursor.sees_any(&NAMES) {
            cursor.named_source()
        } else {
            self.inner_source(cursor)
        }
    }

    #[tactic(auto, using(crate::proofs::Parts::source_is))]
    fn from_item(&self, cursor: &mut Cursor<'_>) -> Result<Boxed<FromItem>, Unread>
        requires sound { NestReads self.now.nest F.pre G.pre F.post G.post }
        requires below { length cursor.old ≤ self.now.nest.most }
        ensures given { spec.Reads result (spec.reading n.Source cursor.old) cursor.new }
        ensures fewer { IfOk result (λ _. length cursor.new < length cursor.old) }
    {
        let at = cursor.offset();
        let aliased = self.aliased(cursor)?;
        marked(cursor, at, aliased)
    }

    /// A query that sees the items before it, behind the word that says so.
    #[tactic(auto, using(crate::proofs::Parts::lateral_item_is))]
    fn lateral_item(&self, cursor: &mut Cursor<'_>) -> Result<Boxed<FromItem>, Unread>
        requires sound { NestReads self.now.nest F.pre G.pre F.post G.post }
        requires below { length cursor.old ≤ self.now.nest.most }
        ensures given { spec.Reads result (piece.lateral_item cursor.old) cursor.new }
        ensures fewer { IfOk result (λ _. length cursor.new < length cursor.old) }
    {
        cursor.past(Sort::Lateral)?;
        let at = cursor.offset();
        let aliased = self.inner_source(cursor)?;
        Ok(unmarked(cursor.alloc(), at, aliased)?)
    }

    /// An item and the condition on which it is joined.
    #[tactic(auto, using(crate::proofs::Parts::source_on_is))]
    fn source_on(&self, cursor: &mut Cursor<'_>, word: JoinWord) -> Result<JoinStep, Unread>
        requires sound { NestReads self.now.nest F.pre G.pre F.post G.post }
        requires below { length cursor.old ≤ self.now.nest.most }
        ensures given { spec.Reads result (spelled.source_on word cursor.old) cursor.new }
        ensures fewer { IfOk result (λ _. length cursor.new < length cursor.old) }
    {
        let item = self.from_item(cursor)?;
        cursor.past(Sort::On)?;
        let condition = self.nest.expression(cursor)?;
        Ok(JoinStep {
            word,
            item: item.into_inner(),
            condition: Some(condition.into_inner()),
        })
    }

    #[tactic(auto, using(crate::proofs::Parts::joined_on_is))]
    fn joined_on(&self, cursor: &mut Cursor<'_>) -> Result<JoinStep, Unread>
        requires sound { NestReads self.now.nest F.pre G.pre F.post G.post }
        requires below { length cursor.old ≤ self.now.nest.most }
        ensures given { spec.Reads result (piece.joined_on cursor.old) cursor.new }
        ensures fewer { IfOk result (λ _. length cursor.new < length cursor.old) }
    {
        let word = cursor.join_kind()?;
        self.source_on(cursor, word)
    }

    #[tactic(auto, using(crate::proofs::Parts::lateral_on_is))]
    fn lateral_on(&self, cursor: &mut Cursor<'_>) -> Result<JoinStep, Unread>
        requires sound { NestReads self.now.nest F.pre G.pre F.post G.post }
        requires below { length cursor.old ≤ self.now.nest.most }
        ensures given { spec.Reads result (spelled.lateral_on cursor.old) cursor.new }
        ensures fewer { IfOk result (λ _. length cursor.new < length cursor.old) }
    {
        let item = self.lateral_item(cursor)?;
        cursor.past_both(Sort::On, Sort::True)?;
        Ok(joined_freely(JoinWord::LeftLateral, item))
    }

    /// What stands behind LEFT JOIN.
    #[tactic(auto, using(crate::proofs::Parts::left_joined_is))]
    fn left_joined(&self, cursor: &mut Cursor<'_>) -> Result<JoinStep, Unread>
        requires sound { NestReads self.now.nest F.pre G.pre F.post G.post }
        requires below { length cursor.old ≤ self.now.nest.most }
        ensures given { spec.Reads result (piece.left_joined cursor.old) cursor.new }
        ensures fewer { IfOk result (λ _. length cursor.new < length cursor.old) }
    {
        if sees_lateral(cursor) {
            self.lateral_on(cursor)
        } else {
            self.source_on(cursor, JoinWord::Left)
        }
    }

    #[tactic(auto, using(crate::proofs::Parts::left_join_is))]
    fn left_join(&self, cursor: &mut Cursor<'_>) -> Result<JoinStep, Unread>
        requires sound { NestReads self.now.nest F.pre G.pre F.post G.post }
        requires below { length cursor.old ≤ self.now.nest.most }
        ensures given { spec.Reads result (spec.reading n.LeftJoin cursor.old) cursor.new }
        ensures fewer { IfOk result (λ _. length cursor.new < length cursor.old) }
    {
        cursor.past(Sort::Left)?;
        cursor.past_behind(Sort::Outer, Sort::Join)?;
        self.left_joined(cursor)
    }

    /// What stands behind CROSS JOIN.
    #[tactic(auto, using(crate::proofs::Parts::crossed_is))]
    fn crossed(&self, cursor: &mut Cursor<'_>) -> Result<JoinStep, Unread>
        requires sound { NestReads self.now.nest F.pre G.pre F.post G.post }
        requires below { length cursor.old ≤ self.now.nest.most }
        ensures given { spec.Reads result (piece.crossed cursor.old) cursor.new }
        ensures fewer { IfOk result (λ _. length cursor.new < length cursor.old) }
    {
        if sees_lateral(cursor) {
            let item = self.lateral_item(cursor)?;
            Ok(joined_freely(JoinWord::CrossLateral, item))
        } else {
            let item = self.from_item(cursor)?;
            Ok(joined_freely(JoinWord::Cross, item))
        }
    }

    #[tactic(auto, using(crate::proofs::Parts::cross_join_is))]
    fn cross_join(&self, cursor: &mut Cursor<'_>) -> Result<JoinStep, Unread>
        requires sound { NestReads self.now.nest F.pre G.pre F.post G.post }
        requires below { length cursor.old ≤ self.now.nest.most }
        ensures given { spec.Reads result (spec.reading n.CrossJoin cursor.old) cursor.new }
        ensures fewer { IfOk result (λ _. length cursor.new < length cursor.old) }
    {
        cursor.past_both(Sort::Cross, Sort::Join)?;
        self.crossed(cursor)
    }

    #[tactic(auto, using(sql_tree::proofs::Queries::join_is))]
    fn join(&self, cursor: &mut Cursor<'_>) -> Result<JoinStep, Unread>
        requires sound { NestReads self.now.nest F.pre G.pre F.post G.post }
        requires below { length cursor.old ≤ self.now.nest.most }
        ensures given { spec.Reads result (spec.reading n.Join cursor.old) cursor.new }
        ensures fewer { IfOk result (λ _. length cursor.new < length cursor.old) }
    {
        if cursor.sees_any(&[Sort::Inner, Sort::Join, Sort::Right, Sort::Full]) {
            self.joined_on(cursor)
        } else if cursor.sees(Sort::Left) {
            self.left_join(cursor)
        } else {
            self.cross_join(cursor)
        }
    }

    fn joins(&self, cursor: &mut Cursor<'_>) -> Result<List<JoinStep>, Unread>
        requires sound { NestReads self.now.nest F.pre G.pre F.post G.post }
        requires below { length cursor.old ≤ self.now.nest.most }
        ensures given { spec.Reads result (piece.joins cursor.old) cursor.new }
        ensures fewer { IfOk result (λ _. length cursor.new ≤ length cursor.old) }
    {
        all_items(
            cursor,
            &[
                Sort::Inner,
                Sort::Join,
                Sort::Right,
                Sort::Full,
                Sort::Left,
                Sort::Cross,
            ],
            |cursor: &mut Cursor<'_>| self.join(cursor),
        )
    }

    #[tactic(auto, using(sql_tree::proofs::Queries::from_is))]
    fn from_tree(&self, cursor: &mut Cursor<'_>) -> Result<FromTree, Unread>
        requires sound { NestReads self.now.nest F.pre G.pre F.post G.post }
        requires below { length cursor.old ≤ self.now.nest.most }
        ensures given { spec.Reads result (spec.reading n.From cursor.old) cursor.new }
        ensures fewer { IfOk result (λ _. length cursor.new < length cursor.old) }
    {
        let first = self.from_item(cursor)?;
        let joins = self.joins(cursor)?;
        Ok(FromTree {
            first: first.into_inner(),
            joins,
        })
    }

    fn from_list(&self, cursor: &mut Cursor<'_>) -> Result<List<FromTree>, Unread>
        requires sound { NestReads self.now.nest F.pre G.pre F.post G.post }
        requires below { length cursor.old ≤ self.now.nest.most }
        ensures given { spec.Reads result (piece.from_list cursor.old) cursor.new }
        ensures fewer { IfOk result (λ _. length cursor.new ≤ length cursor.old) }
    {
        list_of(
            cursor,
            Sort::Comma,
            |cursor: &mut Cursor<'_>| self.from_tree(cursor),
        )
    }

    #[tactic(auto, using(sql_tree::proofs::Queries::sources_is))]
    pub(crate) fn sources(&self, cursor: &mut Cursor<'_>) -> Result<List<FromTree>, Unread>
        requires sound { NestReads self.now.nest F.pre G.pre F.post G.post }
        requires below { length cursor.old ≤ self.now.nest.most }
        ensures given { spec.Reads result (spec.reading n.Sources cursor.old) cursor.new }
        ensures fewer { IfOk result (λ _. length cursor.new ≤ length cursor.old) }
    {
        if cursor.sees(Sort::From) {
            cursor.past(Sort::From)?;
            self.from_list(cursor)
        } else {
            Ok(List::new(cursor.alloc()))
        }
    }
}
