//! Writes expressions, where each sublink of the node has its text.
use crate::columns::{Seen, column_at};
use crate::words::push_spelling;
use bag_algebra::{Arm, ChainStep, Expr};
use null_logic::{Operator, Truth};
use perm_values::{Bytes, NoMemory};
use tree_texts::{Draft, push_expr};

/// Whether an expression stands without parentheses among operands of AND, and as a side of a comparison.
fn stands_alone(expr: &Expr) -> bool {
    match expr {
        Expr::Op { op, .. } => matches!(op, Operator::Coalesce | Operator::NullIf),
        Expr::Col { .. } | Expr::Lit { .. } | Expr::Sub { .. } | Expr::Case { .. } => true,
        Expr::Chain { .. } | Expr::IsNull { .. } | Expr::IsTruth { .. } | Expr::Same { .. } => {
            false
        }
    }
}

/// Whether an expression needs no parentheses as an operand of AND.
fn is_test(expr: &Expr) -> bool {
    match expr {
        Expr::Op { op, .. } => {
            matches!(op, Operator::Compare(_) | Operator::Like | Operator::InList)
        }
        Expr::IsNull { .. } | Expr::Same { .. } => true,
        _ => stands_alone(expr),
    }
}

/// Writes an expression whose parentheses, if it needs any, stand around it.
#[cycle(push_bare)]
pub(crate) fn push_bare(
    expr: &Expr,
    seen: &Seen,
    subs: &[Bytes],
    draft: &mut Draft,
) -> Result<(), NoMemory> {
    match expr {
        Expr::Col { level, place } => match column_at(&*seen, *level, *place) {
            Some(column) => draft.push(column.reference.as_slice()),
            None => Ok(()),
        },
        Expr::Lit { .. } => push_expr(expr, &[], &[], draft),
        Expr::Op { op, parts } => push_operated(*op, parts.as_slice(), seen, subs, draft),
        Expr::Chain { first, steps } => {
            push_part(first.get(), seen, subs, draft)?;
            push_steps(steps.as_slice(), seen, subs, draft)
        }
        Expr::Case { arms, otherwise } => {
            draft.push(b"CASE ")?;
            push_arms(arms.as_slice(), seen, subs, draft)?;
            draft.push(b"ELSE ")?;
            push_bare(otherwise.get(), seen, subs, draft)?;
            draft.push(b"END ")
        }
        Expr::Sub { number } => match subs.get(*number) {
            Some(text) => draft.push(text.as_slice()),
            None => Ok(()),
        },
        Expr::IsNull { part } => {
            push_part(part.get(), seen, subs, draft)?;
            draft.push(b"IS NULL ")
        }
        Expr::IsTruth { truth, part } => push_truth(*truth, part.get(), seen, subs, draft),
        Expr::Same { first, second } => {
            push_part(first.get(), seen, subs, draft)?;
            draft.push(b"IS NOT DISTINCT FROM ")?;
            push_part(second.get(), seen, subs, draft)
        }
    }
}

/// Writes an expression as an operand.
#[cycle(push_bare)]
pub(crate) fn push_part(
    expr: &Expr,
    seen: &Seen,
    subs: &[Bytes],
    draft: &mut Draft,
) -> Result<(), NoMemory> {
    push_unless(stands_alone(expr), expr, seen, subs, draft)
}

/// Writes an expression in parentheses unless it needs none.
#[cycle(push_bare)]
fn push_unless(
    is_bare: bool,
    expr: &Expr,
    seen: &Seen,
    subs: &[Bytes],
    draft: &mut Draft,
) -> Result<(), NoMemory> {
    if is_bare {
        return push_bare(expr, seen, subs, draft);
    }
    draft.push(b"( ")?;
    push_bare(expr, seen, subs, draft)?;
    draft.push(b") ")
}

#[cycle(push_bare)]
fn push_truth(
    truth: Truth,
    part: &Expr,
    seen: &Seen,
    subs: &[Bytes],
    draft: &mut Draft,
) -> Result<(), NoMemory> {
    match truth {
        Truth::True => {
            push_part(part, seen, subs, draft)?;
            draft.push(b"IS TRUE ")
        }
        Truth::False => {
            push_part(part, seen, subs, draft)?;
            draft.push(b"IS FALSE ")
        }
        Truth::Unknown => {
            draft.push(b"( NOT ")?;
            push_part(part, seen, subs, draft)?;
            draft.push(b") IS NULL ")
        }
    }
}

#[cycle(push_bare)]
fn push_operated(
    op: Operator,
    parts: &[Expr],
    seen: &Seen,
    subs: &[Bytes],
    draft: &mut Draft,
) -> Result<(), NoMemory> {
    match op {
        Operator::And | Operator::Or => {
            push_between(op.spelling(), true, parts, seen, subs, draft)
        }
        Operator::Compare(_) | Operator::Like => {
            push_between(op.spelling(), false, parts, seen, subs, draft)
        }
        Operator::Not | Operator::Negate => push_behind(op.spelling(), parts, seen, subs, draft),
        Operator::Arith(_) => Ok(()),
        Operator::Between => push_range(parts, seen, subs, draft),
        Operator::InList => push_in(parts, seen, subs, draft),
        Operator::Coalesce => push_coalesced(parts, seen, subs, draft),
        Operator::NullIf => push_call(b"NULLIF ( ", parts, seen, subs, draft),
    }
}

/// Operands with an operator between them.
#[cycle(push_bare)]
fn push_between(
    spelling: &str,
    is_connective: bool,
    parts: &[Expr],
    seen: &Seen,
    subs: &[Bytes],
    draft: &mut Draft,
) -> Result<(), NoMemory> {
    for (number, part) in parts.iter().enumerate() {
        if number > 0 {
            push_spelling(spelling, draft)?;
        }
        let is_bare = stands_alone(part) || (is_connective && is_test(part));
        push_unless(is_bare, part, seen, subs, draft)?;
    }
    Ok(())
}

#[cycle(push_bare)]
fn push_behind(
    spelling: &str,
    parts: &[Expr],
    seen: &Seen,
    subs: &[Bytes],
    draft: &mut Draft,
) -> Result<(), NoMemory> {
    push_spelling(spelling, draft)?;
    push_between(spelling, false, parts, seen, subs, draft)
}

#[cycle(push_bare)]
fn push_range(
    parts: &[Expr],
    seen: &Seen,
    subs: &[Bytes],
    draft: &mut Draft,
) -> Result<(), NoMemory> {
    for (number, part) in parts.iter().enumerate() {
        match number {
            0 => (),
            1 => draft.push(b"BETWEEN ")?,
            _ => draft.push(b"AND ")?,
        }
        push_part(part, seen, subs, draft)?;
    }
    Ok(())
}

#[cycle(push_bare)]
fn push_in(parts: &[Expr], seen: &Seen, subs: &[Bytes], draft: &mut Draft) -> Result<(), NoMemory> {
    for (number, part) in parts.iter().enumerate() {
        match number {
            0 => (),
            1 => draft.push(b"IN ( ")?,
            _ => draft.push(b", ")?,
        }
        push_part(part, seen, subs, draft)?;
    }
    draft.push(b") ")
}

/// COALESCE of operands; of one, which other engines refuse, the operand alone.
#[cycle(push_bare)]
fn push_coalesced(
    parts: &[Expr],
    seen: &Seen,
    subs: &[Bytes],
    draft: &mut Draft,
) -> Result<(), NoMemory> {
    match parts {
        [part] => push_part(part, seen, subs, draft),
        _ => push_call(b"COALESCE ( ", parts, seen, subs, draft),
    }
}

#[cycle(push_bare)]
fn push_call(
    word: &[u8],
    parts: &[Expr],
    seen: &Seen,
    subs: &[Bytes],
    draft: &mut Draft,
) -> Result<(), NoMemory> {
    draft.push(word)?;
    for (number, part) in parts.iter().enumerate() {
        if number > 0 {
            draft.push(b", ")?;
        }
        push_bare(part, seen, subs, draft)?;
    }
    draft.push(b") ")
}

#[cycle(push_bare)]
fn push_steps(
    steps: &[ChainStep],
    seen: &Seen,
    subs: &[Bytes],
    draft: &mut Draft,
) -> Result<(), NoMemory> {
    for step in steps {
        push_spelling(step.op.spelling(), draft)?;
        push_part(&step.part, seen, subs, draft)?;
    }
    Ok(())
}

#[cycle(push_bare)]
fn push_arms(arms: &[Arm], seen: &Seen, subs: &[Bytes], draft: &mut Draft) -> Result<(), NoMemory> {
    for arm in arms {
        draft.push(b"WHEN ")?;
        push_bare(&arm.condition, seen, subs, draft)?;
        draft.push(b"THEN ")?;
        push_bare(&arm.value, seen, subs, draft)?;
    }
    Ok(())
}
