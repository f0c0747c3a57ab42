use crate::expression::ExprTree;
use crate::name::{ColRef, Name};
use crate::source::FromTree;
use perm_values::{Boxed, Chars, List};

/// What an ORDER BY key names: an output column by its name, or by its place from 1.
#[derive(Drop)]
pub enum OrderKey {
    Named(Chars),
    Position(i64),
}

/// A key of ORDER BY.
#[derive(Drop)]
pub struct OrderTree {
    pub at: usize,
    pub key: OrderKey,
    pub descending: bool,
}

/// A set operation.
#[derive(Clone, Copy, PartialEq, Eq)]
pub enum SetWord {
    Union,
    Except,
    Intersect,
}

/// A query (ISO/IEC 9075-2, 'query expression'), with the offset of its first token.
#[derive(Drop)]
#[cycle(tree)]
pub struct QueryTree {
    pub at: usize,
    pub body: SetTree,
    pub order: List<OrderTree>,
    pub limit: Option<i64>,
}

/// A core, a query in parentheses, or several of them under set operations of one level, from the left.
#[derive(Drop)]
#[cycle(tree)]
pub enum SetTree {
    Core(Boxed<Core>),
    Paren(Boxed<QueryTree>),
    Chain {
        first: Boxed<SetTree>,
        steps: List<SetStep>,
    },
}

/// One step of a chain of set operations, with the offset of its operand.
#[derive(Drop)]
#[cycle(tree)]
pub struct SetStep {
    pub word: SetWord,
    pub all: bool,
    pub at: usize,
    pub operand: SetTree,
}

/// A SELECT with its clauses (ISO/IEC 9075-2, 'query specification'); `provenance` is the offset of the word PROVENANCE.
#[derive(Drop)]
#[cycle(tree)]
pub struct Core {
    pub at: usize,
    pub provenance: Option<usize>,
    pub distinct: bool,
    pub items: List<SelectItem>,
    pub sources: List<FromTree>,
    pub condition: Option<ExprTree>,
    pub groups: List<ColRef>,
    pub having: Option<ExprTree>,
}

/// An item of a SELECT list: `*`, `x.*`, or an expression with its name if it is given one.
#[derive(Drop)]
#[cycle(tree)]
pub enum SelectItem {
    Star { at: usize },
    TableStar { table: Name },
    Value { expr: ExprTree, name: Option<Name> },
}
