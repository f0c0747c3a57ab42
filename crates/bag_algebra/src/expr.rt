ghost use Rattle.std.specs.Prelude.{◌≡◌, IfOk};

use null_logic::{Arith, Operator, Truth};
use perm_values::{Boxed, Copyable, Kind, List, NoMemory, Value, both};
use std::alloc::Global;

/// An expression over the rows that it sees: its node's own row, and the outer rows around it.
#[cycle(expr)]
pub enum Expr {
    /// A column: level 0 reads the node's own row, level k the kth outer row.
    Col {
        level: usize,
        place: usize,
    },
    /// A value as written, with its kind.
    Lit {
        value: Value,
        kind: Kind,
    },
    /// An operator with its parts; arithmetic stands in a `Chain` alone.
    Op {
        op: Operator,
        parts: List<Expr>,
    },
    /// Arithmetic of one level, taken from the left.
    Chain {
        first: Boxed<Expr>,
        steps: List<ChainStep>,
    },
    /// The value of the first arm whose condition is true, otherwise the last part.
    Case {
        arms: List<Arm>,
        otherwise: Boxed<Expr>,
    },
    /// The value of a sublink of the node, by its number.
    Sub {
        number: usize,
    },
    /// Whether the part is NULL.
    IsNull {
        part: Boxed<Expr>,
    },
    /// Whether the part has this truth, NULL counting as unknown.
    IsTruth {
        truth: Truth,
        part: Boxed<Expr>,
    },
    /// Whether the parts are the same, two NULLs included.
    Same {
        first: Boxed<Expr>,
        second: Boxed<Expr>,
    },
}

/// One step of a chain: the operation and its right operand.
#[derive(Drop)]
#[cycle(expr)]
pub struct ChainStep {
    pub op: Arith,
    pub part: Expr,
}

/// One arm of a CASE.
#[derive(Drop)]
#[cycle(expr)]
pub struct Arm {
    pub condition: Expr,
    pub value: Expr,
}

/// One output column of a projection, with its kind.
#[derive(Drop)]
pub struct Item {
    pub expr: Expr,
    pub kind: Kind,
}

impl Drop for Expr {
    #[cycle(expr)]
    fn drop(self) {
        match self {
            Expr::Col { level: _, place: _ } => {}
            Expr::Lit { value: _, kind: _ } => {}
            Expr::Op { op: _, parts } => drop(parts),
            Expr::Chain { first, steps } => {
                drop(first);
                drop(steps);
            }
            Expr::Case { arms, otherwise } => {
                drop(arms);
                drop(otherwise);
            }
            Expr::Sub { number: _ } => {}
            Expr::IsNull { part } => drop(part),
            Expr::IsTruth { truth: _, part } => drop(part),
            Expr::Same { first, second } => {
                drop(first);
                drop(second);
            }
        }
    }
}

impl Copyable for Expr {
    fn copy(&self, alloc: Global) -> Result<Expr, NoMemory> {
        copy_expr(alloc, self)
    }
}

impl Copyable for ChainStep {
    fn copy(&self, alloc: Global) -> Result<ChainStep, NoMemory> {
        Ok(ChainStep {
            op: self.op,
            part: copy_expr(alloc, &self.part)?,
        })
    }
}

impl Copyable for Arm {
    fn copy(&self, alloc: Global) -> Result<Arm, NoMemory> {
        let (condition, value) = both(
            copy_expr(alloc, &self.condition),
            copy_expr(alloc, &self.value),
        )?;
        Ok(Arm { condition, value })
    }
}

impl Copyable for Item {
    fn copy(&self, alloc: Global) -> Result<Item, NoMemory> {
        Ok(Item {
            expr: copy_expr(alloc, &self.expr)?,
            kind: self.kind,
        })
    }
}

#[cycle(copy_expr)]
fn copy_expr(alloc: Global, expr: &Expr) -> Result<Expr, NoMemory>
    ensures { IfOk result (λ copy. copy ≡ expr.now) }
{
    match expr {
        Expr::Col { level, place } => Ok(Expr::Col {
            level: *level,
            place: *place,
        }),
        Expr::Lit { value, kind } => Ok(Expr::Lit {
            value: value.copy(alloc)?,
            kind: *kind,
        }),
        Expr::Op { op, parts } => Ok(Expr::Op {
            op: *op,
            parts: copy_parts(alloc, parts.as_slice())?,
        }),
        Expr::Chain { first, steps } => {
            let (first, steps) = both(
                copy_boxed(alloc, first),
                copy_steps(alloc, steps.as_slice()),
            )?;
            Ok(Expr::Chain { first, steps })
        }
        Expr::Case { arms, otherwise } => {
            let (arms, otherwise) = both(
                copy_arms(alloc, arms.as_slice()),
                copy_boxed(alloc, otherwise),
            )?;
            Ok(Expr::Case { arms, otherwise })
        }
        Expr::Sub { number } => Ok(Expr::Sub { number: *number }),
        Expr::IsNull { part } => Ok(Expr::IsNull {
            part: copy_boxed(alloc, part)?,
        }),
        Expr::IsTruth { truth, part } => Ok(Expr::IsTruth {
            truth: *truth,
            part: copy_boxed(alloc, part)?,
        }),
        Expr::Same { first, second } => {
            let (first, second) = both(copy_boxed(alloc, first), copy_boxed(alloc, second))?;
            Ok(Expr::Same { first, second })
        }
    }
}

#[cycle(copy_expr)]
fn copy_boxed(alloc: Global, part: &Boxed<Expr>) -> Result<Boxed<Expr>, NoMemory>
    ensures { IfOk result (λ copy. copy ≡ part.now) }
{
    let copy = copy_expr(alloc, part.get())?;
    Boxed::new(alloc, copy)
}

#[cycle(copy_expr)]
fn copy_parts(alloc: Global, parts: &[Expr]) -> Result<List<Expr>, NoMemory>
    ensures { IfOk result (λ copy. copy ≡ parts.now) }
{
    let mut copy = List::new(alloc);
    for part in parts {
        copy.push(copy_expr(alloc, part)?)?;
    }
    Ok(copy)
}

#[cycle(copy_expr)]
fn copy_steps(alloc: Global, steps: &[ChainStep]) -> Result<List<ChainStep>, NoMemory>
    ensures { IfOk result (λ copy. copy ≡ steps.now) }
{
    let mut copy = List::new(alloc);
    for step in steps {
        let op = step.op;
        let part = copy_expr(alloc, &step.part)?;
        copy.push(ChainStep { op, part })?;
    }
    Ok(copy)
}

#[cycle(copy_expr)]
fn copy_arms(alloc: Global, arms: &[Arm]) -> Result<List<Arm>, NoMemory>
    ensures { IfOk result (λ copy. copy ≡ arms.now) }
{
    let mut copy = List::new(alloc);
    for arm in arms {
        let (condition, value) = both(
            copy_expr(alloc, &arm.condition),
            copy_expr(alloc, &arm.value),
        )?;
        copy.push(Arm { condition, value })?;
    }
    Ok(copy)
}
