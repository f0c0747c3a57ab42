//! Clauses of queries that hold no expression and no query.

ghost use Rattle.std.specs.Prelude.{◌≡◌, ◌<◌, ◌≤◌, length, IfOk};
ghost use Rattle.sql_tree.specs.grammar.Building as b;
ghost use Rattle.sql_tree.specs.grammar.Cursors as spec;
ghost use Rattle.sql_tree.specs.grammar.built.Pieces as piece;
ghost use Rattle.sql_tree.specs.grammar.Symbols as n;

use crate::grammar::cursor::Cursor;
use crate::grammar::names::name_of;
use crate::grammar::sort::{NAMES, Sort, same_sort, sort_of};
use crate::grammar::unread::Unread;
use crate::{FromSource, JoinWord, Name, OrderTree, ScopeMark, SelectItem};
use perm_values::List;
use sql_lexer::Token;

fn outer_of(token: &Token<'_>) -> JoinWord
    ensures { result ≡ b.outer_of token.now }
{
    if same_sort(sort_of(token), Sort::Right) {
        JoinWord::Right
    } else {
        JoinWord::Full
    }
}

impl<'a> Cursor<'a> {
    #[tactic(auto, using(crate::proofs::Sequenced::join_kind_is))]
    pub fn join_kind(&mut self) -> Result<JoinWord, Unread>
        ensures given { spec.Reads result (spec.reading n.JoinKind self.old) self.new }
        ensures fewer { IfOk result (λ _. length self.new < length self.old) }
    {
        if self.sees_any(&[Sort::Inner, Sort::Join]) {
            self.past_behind(Sort::Inner, Sort::Join)?;
            Ok(JoinWord::Inner)
        } else {
            let token = self.one(&[Sort::Right, Sort::Full])?;
            self.past_behind(Sort::Outer, Sort::Join)?;
            Ok(outer_of(token))
        }
    }

    #[tactic(auto, using(crate::proofs::Sequenced::attributes_is))]
    pub fn attributes(&mut self) -> Result<List<Name>, Unread>
        ensures given { spec.Reads result (piece.attributes self.old) self.new }
        ensures fewer { IfOk result (λ _. length self.new < length self.old) }
    {
        self.past_both(Sort::Provenance, Sort::Opening)?;
        let attributes = self.names()?;
        self.value_before(attributes, Sort::Closing)
    }

    /// What stands behind an item of FROM about its provenance.
    #[tactic(auto, using(crate::proofs::Queries::mark_is))]
    pub fn mark(&mut self) -> Result<ScopeMark, Unread>
        ensures given { spec.Reads result (spec.reading n.Mark self.old) self.new }
        ensures fewer { IfOk result (λ _. length self.new ≤ length self.old) }
    {
        if self.sees(Sort::BaseRelation) {
            self.past(Sort::BaseRelation)?;
            Ok(ScopeMark::BaseRelation)
        } else if self.sees(Sort::Provenance) {
            let attributes = self.attributes()?;
            Ok(ScopeMark::External { attributes })
        } else {
            Ok(ScopeMark::Plain)
        }
    }

    pub fn named_source(&mut self) -> Result<(FromSource, Option<Name>), Unread>
        ensures given { spec.Reads result (piece.named_source self.old) self.new }
        ensures fewer { IfOk result (λ _. length self.new < length self.old) }
    {
        let table = self.name()?;
        let alias = self.alias()?;
        Ok((FromSource::Named(table), alias))
    }
}

impl<'a> Cursor<'a> {
    /// The offset of the word PROVENANCE, if it stands next.
    pub fn provenance(&mut self) -> Result<Option<usize>, Unread>
        ensures given { spec.Reads result (piece.provenance self.old) self.new }
        ensures fewer { IfOk result (λ _. length self.new ≤ length self.old) }
    {
        if self.sees(Sort::Provenance) {
            let at = self.offset();
            self.past(Sort::Provenance)?;
            Ok(Some(at))
        } else {
            Ok(None)
        }
    }

    #[tactic(auto, using(crate::proofs::Sequenced::table_star_is))]
    pub fn table_star(&mut self) -> Result<SelectItem, Unread>
        ensures given { spec.Reads result (piece.table_star self.old) self.new }
        ensures fewer { IfOk result (λ _. length self.new < length self.old) }
    {
        let token = self.one(&NAMES)?;
        self.past_both(Sort::Dot, Sort::Star)?;
        let table = name_of(self.alloc(), token)?;
        Ok(SelectItem::TableStar { table })
    }
}

impl<'a> Cursor<'a> {
    pub fn ends(&mut self) -> Result<(List<OrderTree>, Option<i64>), Unread>
        ensures given { spec.Reads result (piece.ends self.old) self.new }
        ensures fewer { IfOk result (λ _. length self.new ≤ length self.old) }
    {
        let order = self.order()?;
        let limit = self.limit()?;
        Ok((order, limit))
    }
}
