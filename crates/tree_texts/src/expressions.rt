//! Writes expressions of the algebra as SQL, and tells which sublinks they use.
//! Writes expressions, where each sublink has its text.
ghost use Rattle.std.specs.Prelude.{◌≡◌, ◌+◌, ◌++◌, codes, length, OnOk, slice_index_or};
ghost use Rattle.bag_algebra.specs.WellFormed.{is_additive};
ghost use Rattle.tree_texts.specs.expressions.ExpressionTexts.{expr_bytes, texts_of, steps_of, arms_of, operated_with, steps_on, steps_text, arms_on, arms_text, first_level, truth_front, truth_back};
ghost use Rattle.tree_texts.specs.expressions.Words.{first_between, later_between, reference_text, separated, unsaid_text};

use crate::expressions::operators::{
    back, first_between, front, is_said, later_between, separator,
};
use crate::expressions::words::{chain_word, truth_back, truth_front};
use bag_algebra::{Arm, ChainStep, Expr};
use null_logic::{Arith, Operator, Truth};
use perm_values::{Bytes, NoMemory};

mod counts;
mod draft;
mod literals;
mod operators;
mod usage;
mod words;

pub use counts::behind;
pub use draft::Draft;
pub use usage::uses;

fn is_additive(op: Arith) -> bool
    ensures { result ≡ is_additive op }
{
    match op {
        Arith::Add => true,
        Arith::Subtract => true,
        Arith::Multiply => false,
        Arith::Divide => false,
        Arith::Remainder => false,
    }
}

/// Of which level a chain is, by its first step.
fn first_level(steps: &[ChainStep]) -> bool
    ensures { result ≡ first_level steps.now }
{
    match steps {
        [step, ..] => is_additive(step.op),
        [] => true,
    }
}

impl Draft {
    /// The column at a place, counted from 0, of the row at a level.
    fn push_place(&mut self, prefix: &[u8], level: usize, place: usize) -> Result<(), NoMemory>
        ensures { OnOk result (self.new ≡ self.old ++ reference_text prefix.now level (place + 1)) }
    {
        let number = behind(place, 1)?;
        self.push_column(prefix, level, number)
    }

    /// The sublink of a number.
    fn push_sub(&mut self, subs: &[Bytes], number: usize) -> Result<(), NoMemory>
        ensures { OnOk result (self.new ≡ self.old ++ slice_index_or subs.now number unsaid_text) }
    {
        match subs.get(number) {
            Some(text) => self.push(text.as_slice()),
            None => self.push_unsaid(),
        }
    }
}

/// Writes an expression of a node whose own columns begin with a prefix, and whose sublinks have these texts. It fails only for
/// want of memory.
#[cycle(push_expr)]
pub fn push_expr(
    expr: &Expr,
    prefix: &[u8],
    subs: &[Bytes],
    draft: &mut Draft,
) -> Result<(), NoMemory>
    ensures { OnOk result (draft.new ≡ draft.old ++ expr_bytes prefix.now subs.now expr.now) }
{
    match expr {
        Expr::Col { level, place } => draft.push_place(prefix, *level, *place),
        Expr::Lit { value, kind } => draft.push_literal(value, *kind),
        Expr::Op { op, parts } => push_operated(*op, parts.as_slice(), prefix, subs, draft),
        Expr::Chain { first, steps } => {
            draft.push_unless_none(steps.len(), b"( ")?;
            push_expr(first.get(), prefix, subs, draft)?;
            push_steps(steps.as_slice(), prefix, subs, draft)
        }
        Expr::Case { arms, otherwise } => {
            push_arms(arms.as_slice(), prefix, subs, draft)?;
            push_expr(otherwise.get(), prefix, subs, draft)?;
            draft.push_unless_none(arms.len(), b"END ")
        }
        Expr::Sub { number } => draft.push_sub(subs, *number),
        Expr::IsNull { part } => push_null_test(part.get(), prefix, subs, draft),
        Expr::IsTruth { truth, part } => push_truth_test(*truth, part.get(), prefix, subs, draft),
        Expr::Same { first, second } => {
            draft.push(b"( ")?;
            push_expr(first.get(), prefix, subs, draft)?;
            push_same_as(second.get(), prefix, subs, draft)
        }
    }
}

#[cycle(push_expr)]
fn push_operated(
    op: Operator,
    parts: &[Expr],
    prefix: &[u8],
    subs: &[Bytes],
    draft: &mut Draft,
) -> Result<(), NoMemory>
    ensures { OnOk result (draft.new ≡ draft.old
        ++ operated_with op (length parts.now) (texts_of prefix.now subs.now parts.now)) }
{
    let count = parts.len();
    if !is_said(op, count) {
        return draft.push_unsaid();
    }
    draft.push(front(op, count))?;
    push_parts(op, parts, prefix, subs, draft)?;
    draft.push(back(op, count))
}

/// The parts of an operator, with what stands between them.
#[cycle(push_expr)]
fn push_parts(
    op: Operator,
    parts: &[Expr],
    prefix: &[u8],
    subs: &[Bytes],
    draft: &mut Draft,
) -> Result<(), NoMemory>
    ensures { OnOk result (draft.new
        ≡ draft.old ++ separated (first_between op (length parts.now)) (later_between op) 0
        (texts_of prefix.now subs.now parts.now)) }
{
    let second = first_between(op, parts.len());
    let later = later_between(op);
    for (number, part) in parts.iter().enumerate() {
        draft.push(separator(second, later, number))?;
        push_expr(part, prefix, subs, draft)?;
    }
    Ok(())
}

/// The steps of a chain, and what closes it.
#[cycle(push_expr)]
fn push_steps(
    steps: &[ChainStep],
    prefix: &[u8],
    subs: &[Bytes],
    draft: &mut Draft,
) -> Result<(), NoMemory>
    ensures { OnOk result (draft.new ≡ draft.old ++ steps_on prefix.now subs.now steps.now) }
{
    push_steps_of(first_level(steps), steps, prefix, subs, draft)?;
    draft.push_unless_none(steps.len(), b") ")
}

/// The steps of a chain of a level.
#[cycle(push_expr)]
fn push_steps_of(
    additive: bool,
    steps: &[ChainStep],
    prefix: &[u8],
    subs: &[Bytes],
    draft: &mut Draft,
) -> Result<(), NoMemory>
    ensures { OnOk result (draft.new
        ≡ draft.old ++ steps_text additive (steps_of prefix.now subs.now steps.now)) }
{
    for step in steps {
        draft.push(chain_word(additive, step.op))?;
        push_expr(&step.part, prefix, subs, draft)?;
    }
    Ok(())
}

/// The arms of a CASE, and what stands around them.
#[cycle(push_expr)]
fn push_arms(arms: &[Arm], prefix: &[u8], subs: &[Bytes], draft: &mut Draft) -> Result<(), NoMemory>
    ensures { OnOk result (draft.new ≡ draft.old ++ arms_on prefix.now subs.now arms.now) }
{
    draft.push_unless_none(arms.len(), b"CASE ")?;
    push_arms_alone(arms, prefix, subs, draft)?;
    draft.push_unless_none(arms.len(), b"ELSE ")
}

#[cycle(push_expr)]
fn push_arms_alone(
    arms: &[Arm],
    prefix: &[u8],
    subs: &[Bytes],
    draft: &mut Draft,
) -> Result<(), NoMemory>
    ensures { OnOk result (draft.new ≡ draft.old ++ arms_text (arms_of prefix.now subs.now arms.now)) }
{
    for arm in arms {
        draft.push(b"WHEN ")?;
        push_expr(&arm.condition, prefix, subs, draft)?;
        draft.push(b"THEN ")?;
        push_expr(&arm.value, prefix, subs, draft)?;
    }
    Ok(())
}

#[cycle(push_expr)]
fn push_null_test(
    part: &Expr,
    prefix: &[u8],
    subs: &[Bytes],
    draft: &mut Draft,
) -> Result<(), NoMemory>
    ensures { OnOk result (draft.new ≡ draft.old
        ++ (codes "( " ++ (expr_bytes prefix.now subs.now part.now ++ codes "IS NULL ) "))) }
{
    draft.push(b"( ")?;
    push_expr(part, prefix, subs, draft)?;
    draft.push(b"IS NULL ) ")
}

#[cycle(push_expr)]
fn push_truth_test(
    truth: Truth,
    part: &Expr,
    prefix: &[u8],
    subs: &[Bytes],
    draft: &mut Draft,
) -> Result<(), NoMemory>
    ensures { OnOk result (draft.new ≡ draft.old
        ++ (truth_front truth ++ (expr_bytes prefix.now subs.now part.now ++ truth_back truth))) }
{
    draft.push(truth_front(truth))?;
    push_expr(part, prefix, subs, draft)?;
    draft.push(truth_back(truth))
}

/// That the part before is the same as this one.
#[cycle(push_expr)]
fn push_same_as(
    second: &Expr,
    prefix: &[u8],
    subs: &[Bytes],
    draft: &mut Draft,
) -> Result<(), NoMemory>
    ensures { OnOk result (draft.new ≡ draft.old
        ++ (codes "IS NOT DISTINCT FROM " ++ (expr_bytes prefix.now subs.now second.now ++ codes ") "))) }
{
    draft.push(b"IS NOT DISTINCT FROM ")?;
    push_expr(second, prefix, subs, draft)?;
    draft.push(b") ")
}
