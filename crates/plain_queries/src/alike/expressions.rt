//! Whether expressions are the very same.

use bag_algebra::{Aggr, Arm, ChainStep, Expr, Item};

/// Whether both are the same expression. It takes no memory.
#[cycle(same_expr)]
pub(crate) fn same_expr(one: &Expr, other: &Expr) -> bool {
    match one {
        Expr::Op { op, parts } => match other {
            Expr::Op {
                op: second,
                parts: others,
            } => *op == *second && same_parts(parts.as_slice(), others.as_slice()),
            _ => false,
        },
        Expr::Chain { first, steps } => match other {
            Expr::Chain {
                first: second,
                steps: others,
            } => {
                same_expr(first.get(), second.get())
                    && same_steps(steps.as_slice(), others.as_slice())
            }
            _ => false,
        },
        Expr::Case { arms, otherwise } => match other {
            Expr::Case {
                arms: others,
                otherwise: second,
            } => {
                same_arms(arms.as_slice(), others.as_slice())
                    && same_expr(otherwise.get(), second.get())
            }
            _ => false,
        },
        Expr::IsNull { part } => match other {
            Expr::IsNull { part: second } => same_expr(part.get(), second.get()),
            _ => false,
        },
        Expr::IsTruth { truth, part } => match other {
            Expr::IsTruth {
                truth: second,
                part: there,
            } => *truth == *second && same_expr(part.get(), there.get()),
            _ => false,
        },
        Expr::Same { first, second } => match other {
            Expr::Same {
                first: third,
                second: fourth,
            } => same_expr(first.get(), third.get()) && same_expr(second.get(), fourth.get()),
            _ => false,
        },
        Expr::Col { .. } | Expr::Lit { .. } | Expr::Sub { .. } => same_leaf(one, other),
    }
}

/// Whether both are the same column, literal or sublink.
fn same_leaf(one: &Expr, other: &Expr) -> bool {
    match one {
        Expr::Col { level, place } => match other {
            Expr::Col {
                level: second,
                place: there,
            } => *level == *second && *place == *there,
            _ => false,
        },
        Expr::Lit { value, kind } => match other {
            Expr::Lit {
                value: second,
                kind: there,
            } => value.same(second) && *kind == *there,
            _ => false,
        },
        Expr::Sub { number } => match other {
            Expr::Sub { number: second } => *number == *second,
            _ => false,
        },
        _ => false,
    }
}

#[cycle(same_expr)]
fn same_parts(one: &[Expr], others: &[Expr]) -> bool {
    if one.len() != others.len() {
        return false;
    }
    for (number, part) in one.iter().enumerate() {
        if !same_expr(part, &others[number]) {
            return false;
        }
    }
    true
}

#[cycle(same_expr)]
fn same_steps(one: &[ChainStep], others: &[ChainStep]) -> bool {
    if one.len() != others.len() {
        return false;
    }
    for (number, step) in one.iter().enumerate() {
        let other = &others[number];
        if step.op != other.op || !same_expr(&step.part, &other.part) {
            return false;
        }
    }
    true
}

#[cycle(same_expr)]
fn same_arms(one: &[Arm], others: &[Arm]) -> bool {
    if one.len() != others.len() {
        return false;
    }
    for (number, arm) in one.iter().enumerate() {
        let other = &others[number];
        if !same_expr(&arm.condition, &other.condition) || !same_expr(&arm.value, &other.value) {
            return false;
        }
    }
    true
}

/// Whether both are the same expression, or none.
pub(crate) fn same_option(one: &Option<Expr>, other: &Option<Expr>) -> bool {
    match one {
        Some(expr) => match other {
            Some(second) => same_expr(expr, second),
            None => false,
        },
        None => other.is_none(),
    }
}

pub(crate) fn same_items(one: &[Item], others: &[Item]) -> bool {
    if one.len() != others.len() {
        return false;
    }
    for (number, item) in one.iter().enumerate() {
        let other = &others[number];
        if item.kind != other.kind || !same_expr(&item.expr, &other.expr) {
            return false;
        }
    }
    true
}

pub(crate) fn same_aggregates(one: &[Aggr], others: &[Aggr]) -> bool {
    if one.len() != others.len() {
        return false;
    }
    for (number, aggregate) in one.iter().enumerate() {
        if !same_aggregate(aggregate, &others[number]) {
            return false;
        }
    }
    true
}

fn same_aggregate(one: &Aggr, other: &Aggr) -> bool {
    one.function == other.function
        && one.kind == other.kind
        && same_option(&one.argument, &other.argument)
}
