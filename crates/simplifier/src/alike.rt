//! Whether expressions and tables are the very same.
ghost use Rattle.std.specs.Prelude.{◌≡◌, IsTrue};

use bag_algebra::{Expr, Query};
use perm_values::{Kind, Value};

/// Whether both are the same. Of arithmetic and of CASE it says no.
#[cycle(same_expr)]
pub(crate) fn same_expr(one: &Expr, other: &Expr) -> bool
    ensures { IsTrue result → one.now ≡ other.now }
{
    match one {
        Expr::Col { level, place } => match other {
            Expr::Col {
                level: second,
                place: there,
            } => *level == *second && *place == *there,
            _ => false,
        },
        Expr::Lit { value, kind } => match other {
            Expr::Lit {
                value: second,
                kind: there,
            } => same_literal(value, *kind, second, *there),
            _ => false,
        },
        Expr::Op { op, parts } => match other {
            Expr::Op {
                op: second,
                parts: others,
            } => *op == *second && same_parts(parts.as_slice(), others.as_slice()),
            _ => false,
        },
        Expr::IsNull { part } => match other {
            Expr::IsNull { part: second } => same_expr(part.get(), second.get()),
            _ => false,
        },
        _ => false,
    }
}

fn same_literal(value: &Value, kind: Kind, other: &Value, there: Kind) -> bool
    ensures { IsTrue result → (value.now ≡ other.now) × (kind ≡ there) }
{
    value.same(other) && kind == there
}

#[cycle(same_expr)]
fn same_parts(one: &[Expr], others: &[Expr]) -> bool
    ensures { IsTrue result → one.now ≡ others.now }
{
    if one.len() != others.len() {
        return false;
    }
    for (number, part) in one.iter().enumerate() {
        if !same_expr(part, &others[number]) {
            return false;
        }
    }
    true
}

/// Whether both are the same table.
pub(crate) fn same_table(one: &Query, other: &Query) -> bool
    ensures { IsTrue result → one.now ≡ other.now }
{
    match one {
        Query::Table { id, kinds } => match other {
            Query::Table {
                id: second,
                kinds: there,
            } => *id == *second && same_kinds(kinds.as_slice(), there.as_slice()),
            _ => false,
        },
        _ => false,
    }
}

fn same_kinds(one: &[Kind], others: &[Kind]) -> bool
    ensures { IsTrue result → one.now ≡ others.now }
{
    if one.len() != others.len() {
        return false;
    }
    for (number, kind) in one.iter().enumerate() {
        if *kind != others[number] {
            return false;
        }
    }
    true
}
