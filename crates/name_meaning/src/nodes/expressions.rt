//! Expressions of parts as they were made. Each part comes as a result, so that what is there is let go here where another
//! part is wanting, and not in the functions that go through a tree.
ghost use Rattle.std.specs.Prelude.{◌≡◌, ◌⊎◌, ◌∷◌, [], ◌++◌, Err, IfOk, IfErr, IsOkAnd, OnOk};
ghost use Rattle.bag_algebra.specs.declared.expr.Expr.TheVariants.{Case, Chain, IsNull, IsTruth, Lit, Op, Same};
ghost use Rattle.null_logic.specs.declared.operator.Operator.TheVariants.{Between, InList, Like};
ghost use Rattle.perm_values.specs.declared.kind.Kind.TheVariants as kind;
ghost use Rattle.perm_values.specs.declared.value.Value.TheVariants as value;
ghost use Rattle.name_meaning.specs.Expressions.{negated_if, times};
ghost use Rattle.name_meaning.specs.Sublinks.{null_at};

use crate::nodes::together::{headed, two, with_more};
use bag_algebra::{Arm, ChainStep, Expr, Item};
use null_logic::{Arith, Operator, Truth};
use perm_values::{Chars, Copyable, Kind, List, NoMemory, Value, both, in_box};
use std::alloc::Global;

/// NULL of this kind.
pub fn null_at(kind: Kind) -> Expr
    ensures { result ≡ null_at kind }
{
    Expr::Lit {
        value: Value::Null,
        kind,
    }
}

/// A number as written.
pub fn integer_value(number: i64) -> Expr
    ensures { result ≡ Lit (value.Integer number) kind.Integer }
{
    Expr::Lit {
        value: Value::Integer(number),
        kind: Kind::Integer,
    }
}

/// A truth as written.
pub fn truth_value(truth: bool) -> Expr
    ensures { result ≡ Lit (value.Boolean truth) kind.Boolean }
{
    Expr::Lit {
        value: Value::Boolean(truth),
        kind: Kind::Boolean,
    }
}

/// A text as written.
pub fn text_value(alloc: Global, text: &Chars) -> Result<Expr, NoMemory>
    ensures { IfOk result (λ made. made ≡ Lit (value.Text text.now) kind.Text) }
{
    let text = text.copy(alloc)?;
    Ok(Expr::Lit {
        value: Value::Text(text),
        kind: Kind::Text,
    })
}

/// The operator on one part.
fn on_one(alloc: Global, op: Operator, part: Expr) -> Result<Expr, NoMemory>
    ensures { IfOk result (λ made. made ≡ Op op (part ∷ [])) }
{
    let mut parts = List::new(alloc);
    let Ok(_) = parts.push(part) else {
        drop(parts);
        return Err(NoMemory);
    };
    Ok(Expr::Op { op, parts })
}

/// The expression, or the opposite of it.
fn negated_if(alloc: Global, negated: bool, part: Expr) -> Result<Expr, NoMemory>
    ensures { IfOk result (λ made. made ≡ negated_if negated part) }
{
    if !negated {
        return Ok(part);
    }
    on_one(alloc, Operator::Not, part)
}

/// The operator as often before the part as changes its value: once where the count is odd, twice where it is even, and
/// not at all where it is 0.
pub fn repeated(
    alloc: Global,
    op: Operator,
    count: u64,
    part: Result<Expr, NoMemory>,
) -> Result<Expr, NoMemory>
    ensures { IfOk result (λ made. IsOkAnd part (λ part. made ≡ times op count part)) }
{
    let part = part?;
    if count == 0 {
        return Ok(part);
    }
    let once = on_one(alloc, op, part)?;
    if count % 2 == 1 {
        return Ok(once);
    }
    on_one(alloc, op, once)
}

/// Whether the part is NULL, or whether it isn't.
pub fn null_tested(
    alloc: Global,
    negated: bool,
    part: Result<Expr, NoMemory>,
) -> Result<Expr, NoMemory>
    ensures { IfOk result (λ made. IsOkAnd part (λ part. made ≡ negated_if negated (IsNull part))) }
{
    let part = in_box(alloc, part)?;
    negated_if(alloc, negated, Expr::IsNull { part })
}

/// Whether the part has this truth, or whether it hasn't.
pub fn truth_tested(
    alloc: Global,
    negated: bool,
    truth: Truth,
    part: Result<Expr, NoMemory>,
) -> Result<Expr, NoMemory>
    ensures { IfOk result (λ made. IsOkAnd part (λ part. made ≡ negated_if negated (IsTruth truth part))) }
{
    let part = in_box(alloc, part)?;
    negated_if(alloc, negated, Expr::IsTruth { truth, part })
}

/// Whether the parts are the same, or whether they are distinct.
pub fn same_tested(
    alloc: Global,
    distinct: bool,
    first: Result<Expr, NoMemory>,
    second: Result<Expr, NoMemory>,
) -> Result<Expr, NoMemory>
    ensures { IfOk result (λ made. IsOkAnd first (λ first. IsOkAnd second (λ second.
        made ≡ negated_if distinct (Same first second)))) }
{
    let first = in_box(alloc, first);
    let second = in_box(alloc, second);
    let (first, second) = both(first, second)?;
    negated_if(alloc, distinct, Expr::Same { first, second })
}

/// The operator on these parts.
pub fn on_parts(op: Operator, parts: Result<List<Expr>, NoMemory>) -> Result<Expr, NoMemory>
    ensures made { IfOk result (λ made. IsOkAnd parts (λ parts. made ≡ Op op parts)) }
    ensures lacking { IfErr result (λ lack. parts ≡ Err lack) }
{
    let parts = parts?;
    Ok(Expr::Op { op, parts })
}

/// The operator on two parts.
pub fn on_two(
    alloc: Global,
    op: Operator,
    first: Result<Expr, NoMemory>,
    second: Result<Expr, NoMemory>,
) -> Result<Expr, NoMemory>
    ensures { IfOk result (λ made. IsOkAnd first (λ first. IsOkAnd second (λ second.
        made ≡ Op op (first ∷ second ∷ [])))) }
{
    let parts = two(alloc, first, second)?;
    Ok(Expr::Op { op, parts })
}

/// LIKE, or its opposite.
pub fn like(
    alloc: Global,
    negated: bool,
    text: Result<Expr, NoMemory>,
    pattern: Result<Expr, NoMemory>,
) -> Result<Expr, NoMemory>
    ensures { IfOk result (λ made. IsOkAnd text (λ text. IsOkAnd pattern (λ pattern.
        made ≡ negated_if negated (Op Like (text ∷ pattern ∷ []))))) }
{
    let parts = two(alloc, text, pattern)?;
    let op = Operator::Like;
    negated_if(alloc, negated, Expr::Op { op, parts })
}

/// BETWEEN, or its opposite.
pub fn between(
    alloc: Global,
    negated: bool,
    part: Result<Expr, NoMemory>,
    low: Result<Expr, NoMemory>,
    high: Result<Expr, NoMemory>,
) -> Result<Expr, NoMemory>
    ensures { IfOk result (λ made. IsOkAnd part (λ part. IsOkAnd low (λ low. IsOkAnd high (λ high.
        made ≡ negated_if negated (Op Between (part ∷ low ∷ high ∷ [])))))) }
{
    let parts = two(alloc, part, low)?;
    let parts = with_more(parts, high)?;
    let op = Operator::Between;
    negated_if(alloc, negated, Expr::Op { op, parts })
}

/// IN a list, or its opposite.
pub fn in_list(
    alloc: Global,
    negated: bool,
    part: Result<Expr, NoMemory>,
    list: Result<List<Expr>, NoMemory>,
) -> Result<Expr, NoMemory>
    ensures { IfOk result (λ made. IsOkAnd part (λ part. IsOkAnd list (λ list.
        made ≡ negated_if negated (Op InList (part ∷ list))))) }
{
    let parts = headed(alloc, part, list)?;
    let op = Operator::InList;
    negated_if(alloc, negated, Expr::Op { op, parts })
}

/// A chain of arithmetic.
pub fn chained(
    alloc: Global,
    first: Result<Expr, NoMemory>,
    steps: Result<List<ChainStep>, NoMemory>,
) -> Result<Expr, NoMemory>
    ensures { IfOk result (λ made. IsOkAnd first (λ first. IsOkAnd steps (λ steps.
        made ≡ Chain first steps))) }
{
    let first = in_box(alloc, first);
    let (first, steps) = both(first, steps)?;
    Ok(Expr::Chain { first, steps })
}

/// A step of a chain.
pub fn step_of(op: Arith, part: Result<Expr, NoMemory>) -> Result<ChainStep, NoMemory>
    ensures made { IfOk result (λ step. IsOkAnd part (λ part. step ≡ record { op = op; part = part })) }
    ensures lacking { IfErr result (λ lack. part ≡ Err lack) }
{
    let part = part?;
    Ok(ChainStep { op, part })
}

/// A CASE.
pub fn case(
    alloc: Global,
    arms: Result<List<Arm>, NoMemory>,
    otherwise: Result<Expr, NoMemory>,
) -> Result<Expr, NoMemory>
    ensures { IfOk result (λ made. IsOkAnd arms (λ arms. IsOkAnd otherwise (λ otherwise.
        made ≡ Case arms otherwise))) }
{
    let otherwise = in_box(alloc, otherwise);
    let (arms, otherwise) = both(arms, otherwise)?;
    Ok(Expr::Case { arms, otherwise })
}

/// An arm of a CASE.
pub fn arm_of(
    condition: Result<Expr, NoMemory>,
    value: Result<Expr, NoMemory>,
) -> Result<Arm, NoMemory>
    ensures made { IfOk result (λ arm. IsOkAnd condition (λ condition. IsOkAnd value (λ value.
        arm ≡ record { condition = condition; value = value }))) }
    ensures lacking { IfErr result (λ lack. (condition ≡ Err lack) ⊎ (value ≡ Err lack)) }
{
    let (condition, value) = both(condition, value)?;
    Ok(Arm { condition, value })
}

/// A column of the list, behind those so far.
pub fn add_value(
    expr: Result<Expr, NoMemory>,
    kind: Kind,
    items: &mut List<Item>,
) -> Result<(), NoMemory>
    ensures { OnOk result (IsOkAnd expr (λ expr.
        items.new ≡ items.old ++ record { expr = expr; kind = kind } ∷ [])) }
{
    let expr = expr?;
    items.push(Item { expr, kind })?;
    Ok(())
}
