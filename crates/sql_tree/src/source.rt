use crate::expression::ExprTree;
use crate::name::Name;
use crate::query::QueryTree;
use perm_values::{Boxed, List};

/// How a join keeps rows.
#[derive(Clone, Copy, PartialEq, Eq)]
pub enum JoinWord {
    Inner,
    Left,
    Right,
    Full,
    Cross,
    /// The subquery behind it sees the row on the left (ISO/IEC 9075-2, 'lateral derived table').
    CrossLateral,
    LeftLateral,
}

/// How far the provenance of an item of FROM is followed: as usual, to the item itself, or to these of its attributes.
#[derive(Drop)]
pub enum ScopeMark {
    Plain,
    BaseRelation,
    External { attributes: List<Name> },
}

/// An item of FROM with the joins behind it (ISO/IEC 9075-2, 'joined table').
#[derive(Drop)]
#[cycle(tree)]
pub struct FromTree {
    pub first: FromItem,
    pub joins: List<JoinStep>,
}

/// One join, from the left; a cross join has no condition, and neither has a lateral one.
#[derive(Drop)]
#[cycle(tree)]
pub struct JoinStep {
    pub word: JoinWord,
    pub item: FromItem,
    pub condition: Option<ExprTree>,
}

/// A table, a view or a subquery as FROM reads it.
#[derive(Drop)]
#[cycle(tree)]
pub struct FromItem {
    pub at: usize,
    pub source: FromSource,
    pub alias: Option<Name>,
    pub mark: ScopeMark,
}

/// What an item of FROM reads.
#[derive(Drop)]
#[cycle(tree)]
pub enum FromSource {
    Named(Name),
    Inner(Boxed<QueryTree>),
}
