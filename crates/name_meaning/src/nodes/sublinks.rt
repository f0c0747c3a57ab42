//! Sublinks, each with the number under which its node holds it.
ghost use Rattle.std.specs.Prelude.{◌≡◌, cond, length, IfOk, IsOkAnd};
ghost use Rattle.null_logic.specs.declared.compare.Compare.TheVariants.{Equal, NotEqual};
ghost use Rattle.bag_algebra.specs.declared.expr.Expr.TheVariants.{Sub};
ghost use Rattle.name_meaning.specs.Expressions.{in_kind};
ghost use Rattle.name_meaning.specs.nodes.Makes.{with_sub};

use crate::nodes::together::beside;
use crate::nodes::within::Within;
use bag_algebra::{Expr, Query, SubKind, Sublink};
use null_logic::Compare;
use perm_values::NoMemory;

/// ALL of the rows, or any of them.
pub fn in_kind(every: bool, op: Compare) -> SubKind
    ensures { result ≡ in_kind every op }
{
    if every {
        SubKind::All(op)
    } else {
        SubKind::Any(op)
    }
}

/// IN, or NOT IN: any of the rows is equal, or all are unequal.
pub fn in_list_kind(negated: bool) -> SubKind
    ensures { result ≡ in_kind negated (cond negated NotEqual Equal) }
{
    if negated {
        SubKind::All(Compare::NotEqual)
    } else {
        SubKind::Any(Compare::Equal)
    }
}

/// A sublink behind those found so far.
pub fn sublink_of(
    kind: SubKind,
    tested: Option<Expr>,
    query: Result<Query, NoMemory>,
    found: &mut Within,
) -> Result<Expr, NoMemory>
    ensures { IfOk result (λ made. IsOkAnd query (λ query. (made ≡ Sub (length found.old.subs))
        × (found.new ≡ with_sub found.old (record { kind = kind; tested = tested; query = query })))) }
{
    let (tested, query) = beside(tested, query)?;
    let number = found.subs.len();
    found.subs.push(Sublink {
        kind,
        tested,
        query,
    })?;
    Ok(Expr::Sub { number })
}
