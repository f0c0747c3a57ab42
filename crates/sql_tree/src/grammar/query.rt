ghost use Rattle.std.specs.Prelude.{◌≡◌, ◌<◌, ◌≤◌, suc, length, IfOk};
ghost use Rattle.sql_tree.specs.grammar.Cursors as spec;
ghost use Rattle.sql_tree.specs.grammar.built.Pieces as piece;
ghost use Rattle.sql_tree.specs.grammar.Symbols as n;

use crate::grammar::cursor::Cursor;
use crate::grammar::lists::list_of;
use crate::grammar::sort::{NAMES, Sort, same_sort, sort_of};
use crate::grammar::unread::Unread;
use crate::{ColRef, Name, OrderKey, OrderTree};
use perm_values::List;

impl<'a> Cursor<'a> {
    /// Whether DESC stands next; it or ASC is passed.
    fn descending(&mut self) -> Result<bool, Unread>
        ensures given { spec.Reads result (piece.direction self.old) self.new }
        ensures fewer { IfOk result (λ _. length self.new ≤ length self.old) }
    {
        if self.sees_any(&[Sort::Asc, Sort::Desc]) {
            let token = self.one(&[Sort::Asc, Sort::Desc])?;
            Ok(same_sort(sort_of(token), Sort::Desc))
        } else {
            Ok(false)
        }
    }

    fn ordered(&mut self, at: usize, key: OrderKey) -> Result<OrderTree, Unread>
        ensures given { spec.Reads result (piece.ordered at key self.old) self.new }
        ensures fewer { IfOk result (λ _. length self.new ≤ length self.old) }
    {
        let descending = self.descending()?;
        Ok(OrderTree {
            at,
            key,
            descending,
        })
    }

    fn named_key(&mut self) -> Result<OrderTree, Unread>
        ensures given { spec.Reads result (piece.named_key self.old) self.new }
        ensures fewer { IfOk result (λ _. length self.new < length self.old) }
    {
        let token = self.one(&NAMES)?;
        let name = token.spelled(self.alloc())?;
        self.ordered(token.start(), OrderKey::Named(name))
    }

    /// A key of ORDER BY.
    #[tactic(auto, using(crate::proofs::Queries::key_is))]
    pub fn key(&mut self) -> Result<OrderTree, Unread>
        ensures given { spec.Reads result (spec.reading n.Key self.old) self.new }
        ensures fewer { IfOk result (λ _. length self.new < length self.old) }
    {
        if self.sees_any(&NAMES) {
            self.named_key()
        } else {
            let token = self.one(&[Sort::Digits])?;
            self.ordered(token.start(), OrderKey::Position(token.number()))
        }
    }

    /// ORDER BY and its keys.
    #[tactic(auto, using(crate::proofs::Sequenced::order_is))]
    pub fn order(&mut self) -> Result<List<OrderTree>, Unread>
        ensures given { spec.Reads result (spec.reading n.Order self.old) self.new }
        ensures fewer { IfOk result (λ _. length self.new ≤ length self.old) }
    {
        if self.sees(Sort::Order) {
            self.past_both(Sort::Order, Sort::By)?;
            self.keys()
        } else {
            Ok(List::new(self.alloc()))
        }
    }

    fn keys(&mut self) -> Result<List<OrderTree>, Unread>
        ensures given { spec.Reads result (piece.keys self.old) self.new }
        ensures fewer { IfOk result (λ _. length self.new ≤ length self.old) }
    {
        list_of(self, Sort::Comma, |cursor: &mut Cursor<'_>| cursor.key())
    }

    #[tactic(auto, using(crate::proofs::Queries::limit_is))]
    pub fn limit(&mut self) -> Result<Option<i64>, Unread>
        ensures given { spec.Reads result (spec.reading n.Limit self.old) self.new }
        ensures fewer { IfOk result (λ _. length self.new ≤ length self.old) }
    {
        if self.sees(Sort::Limit) {
            self.past(Sort::Limit)?;
            let token = self.one(&[Sort::Digits])?;
            Ok(Some(token.number()))
        } else {
            Ok(None)
        }
    }

    /// A name behind AS or alone.
    #[tactic(auto, using(crate::proofs::Queries::alias_is))]
    pub fn alias(&mut self) -> Result<Option<Name>, Unread>
        ensures given { spec.Reads result (spec.reading n.Alias self.old) self.new }
        ensures fewer { IfOk result (λ _. length self.new ≤ length self.old) }
    {
        if self.sees(Sort::As) {
            self.past(Sort::As)?;
            Ok(Some(self.name()?))
        } else if self.sees_any(&NAMES) {
            Ok(Some(self.name()?))
        } else {
            Ok(None)
        }
    }

    #[tactic(auto, using(crate::proofs::Sequenced::groups_is))]
    pub fn groups(&mut self) -> Result<List<ColRef>, Unread>
        ensures given { spec.Reads result (spec.reading n.Groups self.old) self.new }
        ensures fewer { IfOk result (λ _. length self.new ≤ length self.old) }
    {
        if self.sees(Sort::Group) {
            self.past_both(Sort::Group, Sort::By)?;
            self.columns()
        } else {
            Ok(List::new(self.alloc()))
        }
    }

    fn columns(&mut self) -> Result<List<ColRef>, Unread>
        ensures given { spec.Reads result (piece.columns self.old) self.new }
        ensures fewer { IfOk result (λ _. length self.new ≤ length self.old) }
    {
        list_of(self, Sort::Comma, |cursor: &mut Cursor<'_>| cursor.column())
    }
}
