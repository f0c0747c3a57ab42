ghost use Rattle.std.specs.Prelude.{◌≡◌, IfOk};
ghost use Rattle.std.specs.Option.{option_copied};
ghost use Rattle.null_logic.specs.Operators.{is_and, operator_spelling, row_spelling, has_key, row_of};

use crate::{Arith, Compare};
use perm_values::{Copyable, Kind, NoMemory};
use std::alloc::Global;

/// An operator of expressions, or a function that is written as one.
#[derive(Clone, Copy, PartialEq, Eq)]
pub enum Operator {
    And,
    Or,
    Not,
    Negate,
    Compare(Compare),
    Arith(Arith),
    Like,
    Between,
    InList,
    Coalesce,
    NullIf,
}

impl Operator {
    /// How SQL writes it; words in capital letters.
    pub fn spelling(self) -> &'static str
        ensures { result.now ≡ operator_spelling self }
    {
        match self {
            Operator::And => "AND",
            Operator::Or => "OR",
            Operator::Not => "NOT",
            Operator::Negate => "-",
            Operator::Compare(op) => op.spelling(),
            Operator::Arith(op) => op.spelling(),
            Operator::Like => "LIKE",
            Operator::Between => "BETWEEN",
            Operator::InList => "IN",
            Operator::Coalesce => "COALESCE",
            Operator::NullIf => "NULLIF",
        }
    }
}

/// Whether it is AND. It takes no memory.
pub fn is_and(op: Operator) -> bool
    ensures { result ≡ is_and op }
{
    matches!(op, Operator::And)
}

impl Copyable for Operator {
    fn copy(&self, _alloc: Global) -> Result<Operator, NoMemory> {
        Ok(*self)
    }
}

/// What an operator asks of its operands.
#[derive(Clone, Copy, PartialEq, Eq)]
pub enum Needs {
    Integers,
    Texts,
    Booleans,
    /// Any kind, the same for all.
    Alike,
}

/// One row of the table of operators: which one, where it stands, how tightly it binds, what it takes and gives.
#[derive(Clone, Copy, PartialEq, Eq)]
pub struct OpRow {
    pub operator: Operator,
    /// Whether it stands before its one operand.
    pub prefix: bool,
    /// A greater level binds tighter.
    pub level: u8,
    pub needs: Needs,
    pub gives: Kind,
}

impl OpRow {
    /// How SQL writes the operator; words in capital letters.
    pub fn spelling(&self) -> &'static str
        ensures { result.now ≡ row_spelling self.now }
    {
        self.operator.spelling()
    }

    fn has_key(&self, spelling: &[u8], prefix: bool) -> bool
        ensures { result ≡ has_key spelling.now prefix self.now }
    {
        self.prefix == prefix && self.spelling().as_bytes() == spelling
    }
}

/// A table of operators.
#[derive(Clone, Copy)]
pub struct OpTable<const N: usize> {
    pub rows: [OpRow; N],
}

impl<const N: usize> OpTable<N> {
    /// The first row of this spelling, before its operand or not; `None` exactly where no row has that pair.
    pub fn find(&self, spelling: &[u8], prefix: bool) -> Option<&OpRow>
        ensures { option_copied result ≡ row_of self.now.rows spelling.now prefix }
    {
        for row in &self.rows {
            if row.has_key(spelling, prefix) {
                return Some(row);
            }
        }
        None
    }
}

// Keeps each row of a table on one line: level, place, operator, what its operands need and what comes of them.
macro_rules! rows {
    ($($level:literal $place:ident $operator:expr, $needs:ident => $gives:ident;)*) => {
        [$(OpRow {
            operator: $operator,
            prefix: stands_before!($place),
            level: $level,
            needs: Needs::$needs,
            gives: Kind::$gives,
        }),*]
    };
}

macro_rules! stands_before {
    (prefix) => { true };
    (infix) => { false };
}

/// The operators that stand before or between their operands. IS binds at level 4, between NOT and the comparisons.
pub const OPERATORS: OpTable<18> = OpTable {
    rows: rows! {
        1 infix Operator::Or, Booleans => Boolean;
        2 infix Operator::And, Booleans => Boolean;
        3 prefix Operator::Not, Booleans => Boolean;
        5 infix Operator::Compare(Compare::Equal), Alike => Boolean;
        5 infix Operator::Compare(Compare::NotEqual), Alike => Boolean;
        5 infix Operator::Compare(Compare::Less), Alike => Boolean;
        5 infix Operator::Compare(Compare::LessEqual), Alike => Boolean;
        5 infix Operator::Compare(Compare::Greater), Alike => Boolean;
        5 infix Operator::Compare(Compare::GreaterEqual), Alike => Boolean;
        6 infix Operator::Like, Texts => Boolean;
        6 infix Operator::Between, Alike => Boolean;
        6 infix Operator::InList, Alike => Boolean;
        7 infix Operator::Arith(Arith::Add), Integers => Integer;
        7 infix Operator::Arith(Arith::Subtract), Integers => Integer;
        8 infix Operator::Arith(Arith::Multiply), Integers => Integer;
        8 infix Operator::Arith(Arith::Divide), Integers => Integer;
        8 infix Operator::Arith(Arith::Remainder), Integers => Integer;
        9 prefix Operator::Negate, Integers => Integer;
    },
};
