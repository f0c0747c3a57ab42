//! Expressions that stand over literals alone.
ghost use Rattle.std.specs.Prelude.{◌≡◌, ◌&&◌, Option, Some, None, cond};
ghost use Rattle.folded_literals.specs.Constants.{constant_kind, is_literal, literal_kind, kind_given};
ghost use Rattle.folded_literals.specs.built.Constants.{all_literal, all_steps_literal, all_arms_literal, first_kind};

use bag_algebra::{Arm, ChainStep, Expr};
use null_logic::Operator;
use perm_values::Kind;

/// The kind of what an expression gives that stands over literals alone, and is none itself. It takes no memory.
pub fn constant_kind(expr: &Expr) -> Option<Kind>
    ensures { result ≡ constant_kind expr.now }
{
    match expr {
        Expr::Col { .. } => None,
        Expr::Lit { .. } => None,
        Expr::Op { op, parts } => operator_kind(*op, parts.as_slice()),
        Expr::Chain { first, steps } => kind_where(
            chain_literal(first.get(), steps.as_slice()),
            Kind::Integer,
        ),
        Expr::Case { arms, otherwise } => case_kind(arms.as_slice(), otherwise.get()),
        Expr::Sub { .. } => None,
        Expr::IsNull { part } => kind_where(is_literal(part.get()), Kind::Boolean),
        Expr::IsTruth { part, .. } => kind_where(is_literal(part.get()), Kind::Boolean),
        Expr::Same { first, second } => {
            kind_where(both_literal(first.get(), second.get()), Kind::Boolean)
        }
    }
}

fn operator_kind(op: Operator, parts: &[Expr]) -> Option<Kind>
    ensures { result ≡ cond (all_literal parts.now) (Some (kind_given op (first_kind parts.now))) None }
{
    kind_where(all_literal(parts), kind_given(op, first_kind(parts)))
}

fn case_kind(arms: &[Arm], otherwise: &Expr) -> Option<Kind>
    ensures { result ≡ cond (all_arms_literal arms.now && is_literal otherwise.now)
        (Some (literal_kind otherwise.now)) None }
{
    kind_where(case_literal(arms, otherwise), literal_kind(otherwise))
}

fn kind_where(holds: bool, kind: Kind) -> Option<Kind>
    ensures { result ≡ cond holds (Some kind) None }
{
    if holds {
        return Some(kind);
    }
    None
}

fn is_literal(expr: &Expr) -> bool
    ensures { result ≡ is_literal expr.now }
{
    matches!(expr, Expr::Lit { .. })
}

/// The kind of a literal; of anything else that of truths.
fn literal_kind(expr: &Expr) -> Kind
    ensures { result ≡ literal_kind expr.now }
{
    match expr {
        Expr::Lit { kind, .. } => *kind,
        _ => Kind::Boolean,
    }
}

/// The kind of what an operator gives whose first part is a literal of that kind.
fn kind_given(op: Operator, first: Kind) -> Kind
    ensures { result ≡ kind_given op first }
{
    match op {
        Operator::Coalesce => first,
        Operator::NullIf => first,
        Operator::Negate => Kind::Integer,
        Operator::Arith(_) => Kind::Integer,
        Operator::And => Kind::Boolean,
        Operator::Or => Kind::Boolean,
        Operator::Not => Kind::Boolean,
        Operator::Compare(_) => Kind::Boolean,
        Operator::Like => Kind::Boolean,
        Operator::Between => Kind::Boolean,
        Operator::InList => Kind::Boolean,
    }
}

fn first_kind(parts: &[Expr]) -> Kind
    ensures { result ≡ first_kind parts.now }
{
    match parts.first() {
        None => Kind::Boolean,
        Some(first) => literal_kind(first),
    }
}

fn both_literal(first: &Expr, second: &Expr) -> bool
    ensures { result ≡ (is_literal first.now && is_literal second.now) }
{
    is_literal(first) && is_literal(second)
}

fn chain_literal(first: &Expr, steps: &[ChainStep]) -> bool
    ensures { result ≡ (is_literal first.now && all_steps_literal steps.now) }
{
    is_literal(first) && all_steps_literal(steps)
}

fn case_literal(arms: &[Arm], otherwise: &Expr) -> bool
    ensures { result ≡ (all_arms_literal arms.now && is_literal otherwise.now) }
{
    all_arms_literal(arms) && is_literal(otherwise)
}

fn all_literal(parts: &[Expr]) -> bool
    ensures { result ≡ all_literal parts.now }
{
    for part in parts {
        if !is_literal(part) {
            return false;
        }
    }
    true
}

fn all_steps_literal(steps: &[ChainStep]) -> bool
    ensures { result ≡ all_steps_literal steps.now }
{
    for step in steps {
        if !is_literal(&step.part) {
            return false;
        }
    }
    true
}

fn all_arms_literal(arms: &[Arm]) -> bool
    ensures { result ≡ all_arms_literal arms.now }
{
    for arm in arms {
        if !both_literal(&arm.condition, &arm.value) {
            return false;
        }
    }
    true
}
