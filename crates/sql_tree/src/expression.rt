use crate::name::ColRef;
use crate::query::QueryTree;
use null_logic::{Arith, Compare, Operator, Truth};
use perm_values::{Boxed, Chars, Kind, List};

/// An aggregate function as it is written; COUNT has three forms.
#[derive(Clone, Copy, PartialEq, Eq)]
pub enum AggWord {
    CountRows,
    Count,
    CountDistinct,
    Sum,
    Min,
    Max,
}

/// An expression, with the offset of its first token.
#[derive(Drop)]
#[cycle(tree)]
pub struct ExprTree {
    pub at: usize,
    pub body: ExprBody,
}

/// What an expression is made of.
#[cycle(tree)]
pub enum ExprBody {
    Null,
    /// `CAST(NULL AS ..)`.
    NullOf(Kind),
    Integer(i64),
    Text(Chars),
    Truth(bool),
    Column(ColRef),
    /// An expression in parentheses.
    Paren(Boxed<ExprTree>),
    /// As many NOTs before one part.
    Nots {
        count: u64,
        part: Boxed<ExprTree>,
    },
    /// As many minus signs before one part.
    Signs {
        count: u64,
        part: Boxed<ExprTree>,
    },
    /// Parts with AND or with OR between them.
    Logic {
        op: Operator,
        parts: List<ExprTree>,
    },
    /// Arithmetic of one level, from the left.
    Chain {
        first: Boxed<ExprTree>,
        steps: List<ExprStep>,
    },
    Compared {
        op: Compare,
        first: Boxed<ExprTree>,
        second: Boxed<ExprTree>,
    },
    Like {
        negated: bool,
        text: Boxed<ExprTree>,
        pattern: Boxed<ExprTree>,
    },
    Between {
        negated: bool,
        part: Boxed<ExprTree>,
        low: Boxed<ExprTree>,
        high: Boxed<ExprTree>,
    },
    InList {
        negated: bool,
        part: Boxed<ExprTree>,
        list: List<ExprTree>,
    },
    InQuery {
        negated: bool,
        part: Boxed<ExprTree>,
        query: Boxed<QueryTree>,
    },
    /// A comparison with the rows of a query: ALL where `every` is set, else ANY or SOME.
    Quantified {
        every: bool,
        op: Compare,
        part: Boxed<ExprTree>,
        query: Boxed<QueryTree>,
    },
    IsNull {
        negated: bool,
        part: Boxed<ExprTree>,
    },
    IsTruth {
        negated: bool,
        truth: Truth,
        part: Boxed<ExprTree>,
    },
    /// `IS DISTINCT FROM`; where `negated` is set, `IS NOT DISTINCT FROM`.
    IsDistinct {
        negated: bool,
        first: Boxed<ExprTree>,
        second: Boxed<ExprTree>,
    },
    Case {
        arms: List<ArmTree>,
        otherwise: Option<Boxed<ExprTree>>,
    },
    Coalesce(List<ExprTree>),
    NullIf {
        first: Boxed<ExprTree>,
        second: Boxed<ExprTree>,
    },
    Aggregate {
        function: AggWord,
        argument: Option<Boxed<ExprTree>>,
    },
    Exists(Boxed<QueryTree>),
    /// A query in parentheses as a value.
    Scalar(Boxed<QueryTree>),
}

impl Drop for ExprBody {
    #[cycle(tree)]
    fn drop(self) {
        match self {
            ExprBody::Null => {}
            ExprBody::NullOf(_) => {}
            ExprBody::Integer(_) => {}
            ExprBody::Text(_) => {}
            ExprBody::Truth(_) => {}
            ExprBody::Column(_) => {}
            ExprBody::Paren(part) => drop(part),
            ExprBody::Nots { count: _, part } => drop(part),
            ExprBody::Signs { count: _, part } => drop(part),
            ExprBody::Logic { op: _, parts } => drop(parts),
            ExprBody::Chain { first, steps } => {
                drop(first);
                drop(steps);
            }
            ExprBody::Compared {
                op: _,
                first,
                second,
            } => {
                drop(first);
                drop(second);
            }
            ExprBody::Like {
                negated: _,
                text,
                pattern,
            } => {
                drop(text);
                drop(pattern);
            }
            ExprBody::Between {
                negated: _,
                part,
                low,
                high,
            } => {
                drop(part);
                drop(low);
                drop(high);
            }
            ExprBody::InList {
                negated: _,
                part,
                list,
            } => {
                drop(part);
                drop(list);
            }
            ExprBody::InQuery {
                negated: _,
                part,
                query,
            } => {
                drop(part);
                drop(query);
            }
            ExprBody::Quantified {
                every: _,
                op: _,
                part,
                query,
            } => {
                drop(part);
                drop(query);
            }
            ExprBody::IsNull { negated: _, part } => drop(part),
            ExprBody::IsTruth {
                negated: _,
                truth: _,
                part,
            } => drop(part),
            ExprBody::IsDistinct {
                negated: _,
                first,
                second,
            } => {
                drop(first);
                drop(second);
            }
            ExprBody::Case { arms, otherwise } => {
                drop(arms);
                drop(otherwise);
            }
            ExprBody::Coalesce(parts) => drop(parts),
            ExprBody::NullIf { first, second } => {
                drop(first);
                drop(second);
            }
            ExprBody::Aggregate {
                function: _,
                argument,
            } => drop(argument),
            ExprBody::Exists(query) => drop(query),
            ExprBody::Scalar(query) => drop(query),
        }
    }
}

/// One step of a chain: the operation and its right operand.
#[derive(Drop)]
#[cycle(tree)]
pub struct ExprStep {
    pub op: Arith,
    pub part: ExprTree,
}

/// One arm of a CASE: `WHEN condition THEN value`.
#[derive(Drop)]
#[cycle(tree)]
pub struct ArmTree {
    pub condition: ExprTree,
    pub value: ExprTree,
}
