ghost use Rattle.std.specs.Prelude.{◌≡◌, ◌<◌, List as ItemsOf, IfOk, IfErr, IfSome};
ghost use Rattle.bag_algebra.specs.Inputs.{first_of, inputs_of};
ghost use Rattle.bag_algebra.specs.Measures.{size_of};
ghost use Rattle.bag_algebra.specs.declared.expr.Expr.{Expr};
ghost use Rattle.bag_algebra.specs.declared.expr.Item.{Item};
ghost use Rattle.bag_algebra.specs.declared.query.JoinKind.{JoinKind};
ghost use Rattle.bag_algebra.specs.declared.query.Query.TheVariants.{Filter, Project, Join};
ghost use Rattle.bag_algebra.specs.declared.query.Query.{Query};
ghost use Rattle.bag_algebra.specs.declared.query.Sublink.{Sublink};

use crate::expr::{Expr, Item};
use null_logic::Compare;
use perm_values::{Boxed, Chars, Key, Kind, List};

/// What a sublink asks of its query's rows.
#[derive(Clone, Copy, PartialEq, Eq)]
pub enum SubKind {
    Exists,
    Any(Compare),
    All(Compare),
    Scalar,
}

/// A subquery that stands in an expression of a node.
#[derive(Drop)]
#[cycle(query)]
pub struct Sublink {
    pub kind: SubKind,
    pub tested: Option<Expr>,
    pub query: Query,
}

/// An aggregate function.
#[derive(Clone, Copy, PartialEq, Eq)]
pub enum AggFn {
    CountRows,
    Count,
    CountDistinct,
    Sum,
    Min,
    Max,
}

/// An aggregate of a grouping, with its kind.
#[derive(Drop)]
pub struct Aggr {
    pub function: AggFn,
    pub argument: Option<Expr>,
    pub kind: Kind,
}

/// Which side of a join keeps its unmatched rows.
#[derive(Clone, Copy, PartialEq, Eq)]
pub enum JoinKind {
    Inner,
    Left,
    Right,
    Full,
}

/// How the columns of a source are named in a provenance answer.
#[derive(Drop)]
pub enum Label {
    Relation { name: Chars, columns: List<Chars> },
    External { columns: List<Chars> },
}

/// A query over bags.
#[cycle(query)]
pub enum Query {
    Table {
        id: u64,
        kinds: List<Kind>,
    },
    Single,
    Base {
        input: Boxed<Query>,
        places: List<usize>,
        label: Label,
    },
    Filter {
        input: Boxed<Query>,
        condition: Expr,
        subs: List<Sublink>,
    },
    Project {
        input: Boxed<Query>,
        items: List<Item>,
        subs: List<Sublink>,
    },
    Join {
        kind: JoinKind,
        left: Boxed<Query>,
        right: Boxed<Query>,
        condition: Expr,
        subs: List<Sublink>,
    },
    Apply {
        kind: JoinKind,
        left: Boxed<Query>,
        right: Boxed<Query>,
    },
    Union {
        all: bool,
        left: Boxed<Query>,
        right: Boxed<Query>,
    },
    Intersect {
        all: bool,
        left: Boxed<Query>,
        right: Boxed<Query>,
    },
    Except {
        all: bool,
        left: Boxed<Query>,
        right: Boxed<Query>,
    },
    Distinct {
        input: Boxed<Query>,
    },
    Aggregate {
        input: Boxed<Query>,
        groups: List<usize>,
        aggregates: List<Aggr>,
    },
    Limit {
        input: Boxed<Query>,
        keys: List<Key>,
        count: u64,
    },
    Prov {
        input: Boxed<Query>,
    },
}

/// A query with the names of its columns and the order in which its rows are printed.
#[derive(Drop)]
pub struct Answer {
    pub query: Query,
    pub names: List<Chars>,
    pub keys: List<Key>,
}

/// A projection's input, items and sublinks.
#[derive(Drop)]
pub struct Projection {
    pub input: Query,
    pub items: List<Item>,
    pub subs: List<Sublink>,
}

/// A filter's input, condition and sublinks.
#[derive(Drop)]
pub struct Selection {
    pub input: Query,
    pub condition: Expr,
    pub subs: List<Sublink>,
}

/// A join's sides, its kind, its condition and its sublinks.
#[derive(Drop)]
pub struct JoinParts {
    pub kind: JoinKind,
    pub left: Query,
    pub right: Query,
    pub condition: Expr,
    pub subs: List<Sublink>,
}

impl Drop for Query {
    #[cycle(query)]
    fn drop(self) {
        match self {
            Query::Table { id: _, kinds: _ } => {}
            Query::Single => {}
            Query::Base {
                input,
                places: _,
                label: _,
            } => drop(input),
            Query::Filter {
                input,
                condition: _,
                subs,
            } => {
                drop(input);
                drop(subs);
            }
            Query::Project {
                input,
                items: _,
                subs,
            } => {
                drop(input);
                drop(subs);
            }
            Query::Join {
                kind: _,
                left,
                right,
                condition: _,
                subs,
            } => {
                drop(left);
                drop(right);
                drop(subs);
            }
            Query::Apply {
                kind: _,
                left,
                right,
            } => {
                drop(left);
                drop(right);
            }
            Query::Union {
                all: _,
                left,
                right,
            } => {
                drop(left);
                drop(right);
            }
            Query::Intersect {
                all: _,
                left,
                right,
            } => {
                drop(left);
                drop(right);
            }
            Query::Except {
                all: _,
                left,
                right,
            } => {
                drop(left);
                drop(right);
            }
            Query::Distinct { input } => drop(input),
            Query::Aggregate {
                input,
                groups: _,
                aggregates: _,
            } => drop(input),
            Query::Limit {
                input,
                keys: _,
                count: _,
            } => drop(input),
            Query::Prov { input } => drop(input),
        }
    }
}

impl Query {
    /// The first input of the topmost node, if it has one. All else of it is let go. It takes no memory.
    pub fn into_first_input(self) -> Option<Query>
        ensures first { result ≡ first_of (inputs_of self) }
        ensures smaller { IfSome result (λ input. size_of input < size_of self) }
    {
        match self {
            Query::Table { .. } => None,
            Query::Single => None,
            Query::Base {
                input,
                places: _places,
                label: _label,
            } => Some(input.into_inner()),
            Query::Filter {
                input,
                condition: _condition,
                subs: _subs,
            } => Some(input.into_inner()),
            Query::Project {
                input,
                items: _items,
                subs: _subs,
            } => Some(input.into_inner()),
            Query::Join {
                kind: _kind,
                left,
                right: _right,
                condition: _condition,
                subs: _subs,
            } => Some(left.into_inner()),
            Query::Apply {
                kind: _kind,
                left,
                right: _right,
            } => Some(left.into_inner()),
            Query::Union {
                all: _all,
                left,
                right: _right,
            } => Some(left.into_inner()),
            Query::Intersect {
                all: _all,
                left,
                right: _right,
            } => Some(left.into_inner()),
            Query::Except {
                all: _all,
                left,
                right: _right,
            } => Some(left.into_inner()),
            Query::Distinct { input } => Some(input.into_inner()),
            Query::Aggregate {
                input,
                groups: _groups,
                aggregates: _aggregates,
            } => Some(input.into_inner()),
            Query::Limit {
                input,
                keys: _keys,
                count: _count,
            } => Some(input.into_inner()),
            Query::Prov { input } => Some(input.into_inner()),
        }
    }

    /// The parts of a projection; a query that is none comes back. It takes no memory.
    pub fn into_projection(self) -> Result<Projection, Query>
        ensures parts { IfOk result (λ parts. self ≡ Project parts.input parts.items parts.subs) }
        ensures same { IfErr result (λ query. query ≡ self) }
        ensures other { IfErr result (λ _. (input : Query) (items : ItemsOf Item) (subs : ItemsOf Sublink) →
            self ≡ Project input items subs → ⊥) }
    {
        match self {
            Query::Project { input, items, subs } => Ok(Projection {
                input: input.into_inner(),
                items,
                subs,
            }),
            other => Err(other),
        }
    }

    /// The parts of a filter; a query that is none comes back. It takes no memory.
    pub fn into_selection(self) -> Result<Selection, Query>
        ensures parts { IfOk result (λ parts. self ≡ Filter parts.input parts.condition parts.subs) }
        ensures same { IfErr result (λ query. query ≡ self) }
        ensures other { IfErr result (λ _. (input : Query) (condition : Expr) (subs : ItemsOf Sublink) →
            self ≡ Filter input condition subs → ⊥) }
    {
        match self {
            Query::Filter {
                input,
                condition,
                subs,
            } => Ok(Selection {
                input: input.into_inner(),
                condition,
                subs,
            }),
            other => Err(other),
        }
    }

    /// The parts of a join; a query that is none comes back. It takes no memory.
    pub fn into_join(self) -> Result<JoinParts, Query>
        ensures parts { IfOk result (λ parts.
            self ≡ Join parts.kind parts.left parts.right parts.condition parts.subs) }
        ensures same { IfErr result (λ query. query ≡ self) }
        ensures other { IfErr result (λ _. (kind : JoinKind) (left right : Query) (condition : Expr)
            (subs : ItemsOf Sublink) → self ≡ Join kind left right condition subs → ⊥) }
    {
        match self {
            Query::Join {
                kind,
                left,
                right,
                condition,
                subs,
            } => Ok(JoinParts {
                kind,
                left: left.into_inner(),
                right: right.into_inner(),
                condition,
                subs,
            }),
            other => Err(other),
        }
    }
}
