use crate::scope_columns::ScopeColumns;
use perm_catalog::NameList;
use perm_values::{Chars, Kind, List};

/// A column of an item in scope: the number of the item, from 0, and the column's name and kind.
#[derive(Drop)]
pub struct ScopeColumn {
    pub item: usize,
    pub name: Chars,
    pub kind: Kind,
}

/// The items of a core under their names, with all their columns in order; where the core's rows stand for groups, the
/// places of its GROUP BY columns in the order written.
#[derive(Drop)]
pub struct Scope {
    pub items: NameList,
    pub columns: ScopeColumns,
    pub groups: Option<List<usize>>,
}

/// A column where it was found: through as many sublinks as its level says, and where it stands in the rows of its
/// core: nowhere, if these are groups and it is none of their columns.
#[derive(Clone, Copy, PartialEq, Eq)]
pub struct FoundColumn {
    pub level: usize,
    pub place: Option<usize>,
    pub kind: Kind,
}

/// What a reference to a column means: nothing, two columns of one scope, or one column.
#[derive(Clone, Copy, PartialEq, Eq)]
pub enum Found {
    Absent,
    Ambiguous,
    Column(FoundColumn),
}
