//! The parts of a SELECT (ISO/IEC 9075-2, 'query specification').

ghost use Rattle.std.specs.Prelude.{◌≡◌, ◌<◌, ◌≤◌, length, IfOk};
ghost use Rattle.sql_tree.specs.grammar.Building as b;
ghost use Rattle.sql_tree.specs.grammar.Cursors as spec;
ghost use Rattle.sql_tree.specs.grammar.Nests.{NestReads};
ghost use Rattle.sql_tree.specs.grammar.built.Pieces as piece;
ghost use Rattle.sql_tree.specs.grammar.Symbols as n;
ghost use Rattle.sql_queries.specs.built.Selects as spelled;

use crate::grammar::Queries;
use perm_values::{Boxed, Copyable, List, NoMemory};
use sql_lexer::Token;
use sql_tree::{
    ColRef, Core, Cursor, ExprTree, FromTree, NAMES, Name, QueryTree, SelectItem, Sort, Unread,
    list_of,
};
use std::alloc::Global;

fn unboxed(part: Option<Boxed<ExprTree>>) -> Option<ExprTree>
    ensures { result ≡ part }
{
    match part {
        Some(expr) => Some(expr.into_inner()),
        None => None,
    }
}

/// The clauses of a SELECT behind its items.
#[derive(Drop)]
struct ClauseTrees {
    sources: List<FromTree>,
    condition: Option<Boxed<ExprTree>>,
    groups: List<ColRef>,
    having: Option<Boxed<ExprTree>>,
}

impl ClauseTrees {
    fn core(
        self,
        at: usize,
        provenance: Option<usize>,
        distinct: bool,
        items: List<SelectItem>,
    ) -> Core
        ensures { result ≡ spelled.core_of at provenance distinct items self }
    {
        Core {
            at,
            provenance,
            distinct,
            items,
            sources: self.sources,
            condition: unboxed(self.condition),
            groups: self.groups,
            having: unboxed(self.having),
        }
    }
}

/// The words before the items: the offset of PROVENANCE, if it stands there, and whether DISTINCT does.
fn head(cursor: &mut Cursor<'_>) -> Result<(Option<usize>, bool), Unread>
    ensures given { spec.Reads result (spelled.head cursor.old) cursor.new }
    ensures fewer { IfOk result (λ _. length cursor.new < length cursor.old) }
{
    cursor.past(Sort::Select)?;
    let provenance = cursor.provenance()?;
    let distinct = cursor.passes(Sort::Distinct)?;
    Ok((provenance, distinct))
}

/// An expression of the SELECT list, which was read before, with the name behind it.
fn named(cursor: &mut Cursor<'_>, expr: Boxed<ExprTree>) -> Result<SelectItem, Unread>
    ensures given { spec.Reads result (spelled.named expr cursor.old) cursor.new }
    ensures fewer { IfOk result (λ _. length cursor.new ≤ length cursor.old) }
{
    let name = cursor.alias()?;
    Ok(SelectItem::Value {
        expr: expr.into_inner(),
        name,
    })
}

impl<
    F: Fn(&mut Cursor<'_>) -> Result<Boxed<ExprTree>, Unread>,
    G: Fn(&mut Cursor<'_>) -> Result<Boxed<QueryTree>, Unread>,
> Queries<F, G> {
    #[tactic(auto, using(sql_tree::proofs::Queries::item_value_is))]
    fn item_value(&self, cursor: &mut Cursor<'_>) -> Result<SelectItem, Unread>
        requires sound { NestReads self.now.nest F.pre G.pre F.post G.post }
        requires below { length cursor.old < self.now.nest.most }
        ensures given { spec.Reads result (spec.reading n.ItemValue cursor.old) cursor.new }
        ensures fewer { IfOk result (λ _. length cursor.new < length cursor.old) }
    {
        let expr = self.nest.expression(cursor)?;
        named(cursor, expr)
    }

    #[tactic(auto, using(sql_tree::proofs::Queries::item_is))]
    fn item(&self, cursor: &mut Cursor<'_>) -> Result<SelectItem, Unread>
        requires sound { NestReads self.now.nest F.pre G.pre F.post G.post }
        requires below { length cursor.old < self.now.nest.most }
        ensures given { spec.Reads result (spec.reading n.Item cursor.old) cursor.new }
        ensures fewer { IfOk result (λ _. length cursor.new < length cursor.old) }
    {
        if cursor.sees(Sort::Star) {
            let token = cursor.one(&[Sort::Star])?;
            Ok(SelectItem::Star { at: token.start() })
        } else if cursor.sees_table_star() {
            cursor.table_star()
        } else {
            self.item_value(cursor)
        }
    }

    fn items(&self, cursor: &mut Cursor<'_>) -> Result<List<SelectItem>, Unread>
        requires sound { NestReads self.now.nest F.pre G.pre F.post G.post }
        requires below { length cursor.old < self.now.nest.most }
        ensures given { spec.Reads result (piece.items cursor.old) cursor.new }
        ensures fewer { IfOk result (λ _. length cursor.new ≤ length cursor.old) }
    {
        list_of(
            cursor,
            Sort::Comma,
            |cursor: &mut Cursor<'_>| self.item(cursor),
        )
    }

    /// The condition behind this word, if the word stands next.
    fn clause(&self, cursor: &mut Cursor<'_>, sort: Sort) -> Result<Option<Boxed<ExprTree>>, Unread>
        requires sound { NestReads self.now.nest F.pre G.pre F.post G.post }
        requires below { length cursor.old ≤ self.now.nest.most }
        ensures given { spec.Reads result (spelled.clause sort cursor.old) cursor.new }
        ensures fewer { IfOk result (λ _. length cursor.new ≤ length cursor.old) }
    {
        if !cursor.sees(sort) {
            return Ok(None);
        }
        cursor.past(sort)?;
        Ok(Some(self.nest.expression(cursor)?))
    }

    #[tactic(auto, using(sql_tree::proofs::Queries::condition_is))]
    pub fn condition(&self, cursor: &mut Cursor<'_>) -> Result<Option<Boxed<ExprTree>>, Unread>
        requires sound { NestReads self.now.nest F.pre G.pre F.post G.post }
        requires below { length cursor.old ≤ self.now.nest.most }
        ensures given { spec.Reads result (spec.reading n.Condition cursor.old) cursor.new }
        ensures fewer { IfOk result (λ _. length cursor.new ≤ length cursor.old) }
    {
        self.clause(cursor, Sort::Where)
    }

    #[tactic(auto, using(sql_tree::proofs::Queries::having_is))]
    fn having(&self, cursor: &mut Cursor<'_>) -> Result<Option<Boxed<ExprTree>>, Unread>
        requires sound { NestReads self.now.nest F.pre G.pre F.post G.post }
        requires below { length cursor.old ≤ self.now.nest.most }
        ensures given { spec.Reads result (spec.reading n.Having cursor.old) cursor.new }
        ensures fewer { IfOk result (λ _. length cursor.new ≤ length cursor.old) }
    {
        self.clause(cursor, Sort::Having)
    }

    /// The clauses behind the items.
    fn clauses(&self, cursor: &mut Cursor<'_>) -> Result<ClauseTrees, Unread>
        requires sound { NestReads self.now.nest F.pre G.pre F.post G.post }
        requires below { length cursor.old ≤ self.now.nest.most }
        ensures given { spec.Reads result (spelled.clauses cursor.old) cursor.new }
        ensures fewer { IfOk result (λ _. length cursor.new ≤ length cursor.old) }
    {
        let sources = self.sources(cursor)?;
        let condition = self.condition(cursor)?;
        let groups = cursor.groups()?;
        let having = self.having(cursor)?;
        Ok(ClauseTrees {
            sources,
            condition,
            groups,
            having,
        })
    }

    #[tactic(auto, using(crate::proofs::Selecting::core_is))]
    pub(crate) fn core(&self, cursor: &mut Cursor<'_>) -> Result<Boxed<Core>, Unread>
        requires sound { NestReads self.now.nest F.pre G.pre F.post G.post }
        requires below { length cursor.old ≤ self.now.nest.most }
        ensures given { spec.Reads result (spec.reading n.CoreOf cursor.old) cursor.new }
        ensures fewer { IfOk result (λ _. length cursor.new < length cursor.old) }
    {
        let at = cursor.offset();
        let (provenance, distinct) = head(cursor)?;
        let items = self.items(cursor)?;
        let clauses = self.clauses(cursor)?;
        let core = clauses.core(at, provenance, distinct, items);
        Ok(Boxed::new(cursor.alloc(), core)?)
    }
}
