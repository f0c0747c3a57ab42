//! What stands behind a part of an expression and makes another expression of it.

ghost use Rattle.std.specs.Prelude.{◌≡◌, IfOk};
ghost use Rattle.sql_levels.specs.built.Tails as spec;

use null_logic::{Compare, Truth};
use perm_values::{Boxed, List, NoMemory};
use sql_tree::{ExprBody, ExprTree, QueryTree, node};
use std::alloc::Global;

/// A predicate without its first part.
#[derive(Drop)]
pub(crate) enum Tail {
    Null,
    Truth(Truth),
    Distinct(Boxed<ExprTree>),
    Quantified {
        every: bool,
        op: Compare,
        query: Boxed<QueryTree>,
    },
    Compared {
        op: Compare,
        second: Boxed<ExprTree>,
    },
    Like(Boxed<ExprTree>),
    Between {
        low: Boxed<ExprTree>,
        high: Boxed<ExprTree>,
    },
    InQuery(Boxed<QueryTree>),
    InList(List<ExprTree>),
}

impl Tail {
    /// The predicate's body; a comparison isn't negated.
    fn body(self, negated: bool, part: Boxed<ExprTree>) -> ExprBody
        ensures { result ≡ spec.body self negated part }
    {
        match self {
            Tail::Null => ExprBody::IsNull { negated, part },
            Tail::Truth(truth) => ExprBody::IsTruth {
                negated,
                truth,
                part,
            },
            Tail::Distinct(second) => ExprBody::IsDistinct {
                negated,
                first: part,
                second,
            },
            Tail::Quantified { every, op, query } => ExprBody::Quantified {
                every,
                op,
                part,
                query,
            },
            Tail::Compared { op, second } => ExprBody::Compared {
                op,
                first: part,
                second,
            },
            Tail::Like(pattern) => ExprBody::Like {
                negated,
                text: part,
                pattern,
            },
            Tail::Between { low, high } => ExprBody::Between {
                negated,
                part,
                low,
                high,
            },
            Tail::InQuery(query) => ExprBody::InQuery {
                negated,
                part,
                query,
            },
            Tail::InList(list) => ExprBody::InList {
                negated,
                part,
                list,
            },
        }
    }

    /// The predicate on its first part.
    pub(crate) fn on(
        self,
        alloc: Global,
        negated: bool,
        part: Boxed<ExprTree>,
    ) -> Result<Boxed<ExprTree>, NoMemory>
        ensures { IfOk result (λ tree. tree ≡ spec.on self negated part) }
    {
        let at = part.get().at;
        node(alloc, at, self.body(negated, part))
    }
}
