//! Functions: aggregates, COALESCE and NULLIF, and the names that are none.

ghost use Rattle.std.specs.Prelude.{◌≡◌, ◌<◌, ◌≤◌, length, IfOk};
ghost use Rattle.sql_tree.specs.grammar.Building as b;
ghost use Rattle.sql_primaries.specs.built.Calls as spelled;
ghost use Rattle.sql_tree.specs.grammar.Cursors as spec;
ghost use Rattle.sql_tree.specs.grammar.Nests.{NestReads};
ghost use Rattle.sql_tree.specs.grammar.Symbols as n;

use crate::grammar::Primaries;
use perm_values::{Boxed, List, NoMemory};
use sql_lexer::Token;
use sql_tree::{
    AggWord, Cursor, ExprBody, ExprTree, Name, QueryTree, Sort, Unread, name_of, reference,
    same_sort, sort_of,
};
use std::alloc::Global;

/// The names that are no function's word.
const PLAIN_NAMES: [Sort; 17] = [
    Sort::Plain,
    Sort::Quoted,
    Sort::View,
    Sort::Copy,
    Sort::Header,
    Sort::Explain,
    Sort::Rewrite,
    Sort::Show,
    Sort::Fresh,
    Sort::Impact,
    Sort::Of,
    Sort::Lateral,
    Sort::Integer,
    Sort::Int,
    Sort::BigInt,
    Sort::Text,
    Sort::Boolean,
];

const AGGREGATES: [Sort; 3] = [Sort::Sum, Sort::Min, Sort::Max];

fn aggregate_of(token: &Token<'_>) -> AggWord
    ensures { result ≡ b.aggregate_of token.now }
{
    let sort = sort_of(token);
    if same_sort(sort, Sort::Sum) {
        AggWord::Sum
    } else if same_sort(sort, Sort::Min) {
        AggWord::Min
    } else {
        AggWord::Max
    }
}

/// What COUNT with an argument counts.
fn count_word(distinct: bool) -> AggWord
    ensures { result ≡ spelled.count_word distinct }
{
    if distinct {
        AggWord::CountDistinct
    } else {
        AggWord::Count
    }
}

/// The column of that name, or of the item of that name.
fn column(alloc: Global, first: &Token<'_>, second: Option<Name>) -> Result<ExprBody, NoMemory>
    ensures { IfOk result (λ body. body ≡ b.column (first.now, second)) }
{
    let name = name_of(alloc, first)?;
    Ok(ExprBody::Column(reference(name, second)))
}

/// The column of a function's word that no parenthesis follows.
fn named(cursor: &mut Cursor<'_>, first: &Token<'_>) -> Result<ExprBody, Unread>
    ensures given { spec.Reads result (spelled.named first.now cursor.old) cursor.new }
    ensures fewer { IfOk result (λ _. length cursor.new ≤ length cursor.old) }
{
    let second = cursor.name_behind_dot()?;
    Ok(column(cursor.alloc(), first, second)?)
}

fn count_rows(cursor: &mut Cursor<'_>) -> Result<ExprBody, Unread>
    ensures given { spec.Reads result (spelled.count_rows cursor.old) cursor.new }
    ensures fewer { IfOk result (λ _. length cursor.new < length cursor.old) }
{
    cursor.one(&[Sort::Star])?;
    Ok(ExprBody::Aggregate {
        function: AggWord::CountRows,
        argument: None,
    })
}

impl<
    F: Fn(&mut Cursor<'_>) -> Result<Boxed<ExprTree>, Unread>,
    G: Fn(&mut Cursor<'_>) -> Result<Boxed<QueryTree>, Unread>,
> Primaries<F, G> {
    fn count_values(&self, cursor: &mut Cursor<'_>) -> Result<ExprBody, Unread>
        requires sound { NestReads self.now.nest F.pre G.pre F.post G.post }
        requires below { length cursor.old < self.now.nest.most }
        ensures given { spec.Reads result (spelled.count_values cursor.old) cursor.new }
        ensures fewer { IfOk result (λ _. length cursor.new < length cursor.old) }
    {
        let distinct = cursor.passes(Sort::Distinct)?;
        let part = self.nest.expression(cursor)?;
        Ok(ExprBody::Aggregate {
            function: count_word(distinct),
            argument: Some(part),
        })
    }

    #[tactic(auto, using(crate::proofs::PrimariesRead::counted_is))]
    fn counted(&self, cursor: &mut Cursor<'_>) -> Result<ExprBody, Unread>
        requires sound { NestReads self.now.nest F.pre G.pre F.post G.post }
        requires below { length cursor.old < self.now.nest.most }
        ensures given { spec.Reads result (spec.reading n.Counted cursor.old) cursor.new }
        ensures fewer { IfOk result (λ _. length cursor.new < length cursor.old) }
    {
        if cursor.sees(Sort::Star) {
            count_rows(cursor)
        } else {
            self.count_values(cursor)
        }
    }

    fn count_arguments(&self, cursor: &mut Cursor<'_>) -> Result<ExprBody, Unread>
        requires sound { NestReads self.now.nest F.pre G.pre F.post G.post }
        requires below { length cursor.old ≤ self.now.nest.most }
        ensures given { spec.Reads result (spelled.count_arguments cursor.old) cursor.new }
        ensures fewer { IfOk result (λ _. length cursor.new < length cursor.old) }
    {
        cursor.past(Sort::Opening)?;
        let body = self.counted(cursor)?;
        cursor.value_before(body, Sort::Closing)
    }

    #[tactic(auto, using(crate::proofs::PrimariesRead::count_is))]
    pub(crate) fn count(&self, cursor: &mut Cursor<'_>) -> Result<ExprBody, Unread>
        requires sound { NestReads self.now.nest F.pre G.pre F.post G.post }
        requires below { length cursor.old ≤ self.now.nest.most }
        ensures given { spec.Reads result (spec.reading n.Count cursor.old) cursor.new }
        ensures fewer { IfOk result (λ _. length cursor.new < length cursor.old) }
    {
        let token = cursor.one(&[Sort::Count])?;
        if cursor.sees(Sort::Opening) {
            self.count_arguments(cursor)
        } else {
            named(cursor, token)
        }
    }

    fn enclosed(&self, cursor: &mut Cursor<'_>) -> Result<Boxed<ExprTree>, Unread>
        requires sound { NestReads self.now.nest F.pre G.pre F.post G.post }
        requires below { length cursor.old ≤ self.now.nest.most }
        ensures given { spec.Reads result (spelled.enclosed cursor.old) cursor.new }
        ensures fewer { IfOk result (λ _. length cursor.new < length cursor.old) }
    {
        cursor.past(Sort::Opening)?;
        self.before(cursor, Sort::Closing)
    }

    fn aggregate_of(&self, cursor: &mut Cursor<'_>, token: &Token<'_>) -> Result<ExprBody, Unread>
        requires sound { NestReads self.now.nest F.pre G.pre F.post G.post }
        requires below { length cursor.old ≤ self.now.nest.most }
        ensures given { spec.Reads result (spelled.aggregate_of token.now cursor.old) cursor.new }
        ensures fewer { IfOk result (λ _. length cursor.new < length cursor.old) }
    {
        let part = self.enclosed(cursor)?;
        Ok(ExprBody::Aggregate {
            function: aggregate_of(token),
            argument: Some(part),
        })
    }

    #[tactic(auto, using(crate::proofs::PrimariesRead::aggregate_is))]
    pub(crate) fn aggregate(&self, cursor: &mut Cursor<'_>) -> Result<ExprBody, Unread>
        requires sound { NestReads self.now.nest F.pre G.pre F.post G.post }
        requires below { length cursor.old ≤ self.now.nest.most }
        ensures given { spec.Reads result (spec.reading n.Aggregate cursor.old) cursor.new }
        ensures fewer { IfOk result (λ _. length cursor.new < length cursor.old) }
    {
        let token = cursor.one(&AGGREGATES)?;
        if cursor.sees(Sort::Opening) {
            self.aggregate_of(cursor, token)
        } else {
            named(cursor, token)
        }
    }

    fn enclosed_list(&self, cursor: &mut Cursor<'_>) -> Result<List<ExprTree>, Unread>
        requires sound { NestReads self.now.nest F.pre G.pre F.post G.post }
        requires below { length cursor.old ≤ self.now.nest.most }
        ensures given { spec.Reads result (spelled.enclosed_list cursor.old) cursor.new }
        ensures fewer { IfOk result (λ _. length cursor.new < length cursor.old) }
    {
        cursor.past(Sort::Opening)?;
        let list = self.nest.expressions(cursor)?;
        cursor.value_before(list, Sort::Closing)
    }

    fn coalesce_of(&self, cursor: &mut Cursor<'_>) -> Result<ExprBody, Unread>
        requires sound { NestReads self.now.nest F.pre G.pre F.post G.post }
        requires below { length cursor.old ≤ self.now.nest.most }
        ensures given { spec.Reads result (spelled.coalesce_of cursor.old) cursor.new }
        ensures fewer { IfOk result (λ _. length cursor.new < length cursor.old) }
    {
        Ok(ExprBody::Coalesce(self.enclosed_list(cursor)?))
    }

    #[tactic(auto, using(crate::proofs::PrimariesRead::coalesce_is))]
    pub(crate) fn coalesce(&self, cursor: &mut Cursor<'_>) -> Result<ExprBody, Unread>
        requires sound { NestReads self.now.nest F.pre G.pre F.post G.post }
        requires below { length cursor.old ≤ self.now.nest.most }
        ensures given { spec.Reads result (spec.reading n.Coalesce cursor.old) cursor.new }
        ensures fewer { IfOk result (λ _. length cursor.new < length cursor.old) }
    {
        let token = cursor.one(&[Sort::Coalesce])?;
        if cursor.sees(Sort::Opening) {
            self.coalesce_of(cursor)
        } else {
            named(cursor, token)
        }
    }

    #[tactic(auto, using(crate::proofs::Pairs::null_if_of_is))]
    fn null_if_of(&self, cursor: &mut Cursor<'_>) -> Result<ExprBody, Unread>
        requires sound { NestReads self.now.nest F.pre G.pre F.post G.post }
        requires below { length cursor.old ≤ self.now.nest.most }
        ensures given { spec.Reads result (spelled.null_if_of cursor.old) cursor.new }
        ensures fewer { IfOk result (λ _. length cursor.new < length cursor.old) }
    {
        cursor.past(Sort::Opening)?;
        let (first, second) = self.pair(cursor, Sort::Comma)?;
        cursor.value_before(ExprBody::NullIf { first, second }, Sort::Closing)
    }

    #[tactic(auto, using(crate::proofs::PrimariesRead::null_if_is))]
    pub(crate) fn null_if(&self, cursor: &mut Cursor<'_>) -> Result<ExprBody, Unread>
        requires sound { NestReads self.now.nest F.pre G.pre F.post G.post }
        requires below { length cursor.old ≤ self.now.nest.most }
        ensures given { spec.Reads result (spec.reading n.NullIf cursor.old) cursor.new }
        ensures fewer { IfOk result (λ _. length cursor.new < length cursor.old) }
    {
        let token = cursor.one(&[Sort::NullIf])?;
        if cursor.sees(Sort::Opening) {
            self.null_if_of(cursor)
        } else {
            named(cursor, token)
        }
    }
}

/// A column, which begins with a name that is no function's word.
#[tactic(auto, using(crate::proofs::PrimariesRead::reference_is))]
pub(crate) fn column_of(cursor: &mut Cursor<'_>) -> Result<ExprBody, Unread>
    ensures given { spec.Reads result (spec.reading n.Reference cursor.old) cursor.new }
    ensures fewer { IfOk result (λ _. length cursor.new < length cursor.old) }
{
    let token = cursor.one(&PLAIN_NAMES)?;
    named(cursor, token)
}
