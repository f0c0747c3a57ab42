//! The columns that expressions read, put behind those that were found before.
ghost use Rattle.std.specs.Prelude.{◌≡◌, [], ◌∷◌, ◌++◌, IfOk};
ghost use Rattle.query_facts.specs.reached.reads.Columns.{aggregates_columns, column_at, expr_columns, items_columns, option_columns};
ghost use Rattle.query_facts.specs.reached.reads.built.Columns.{all_arms_columns, all_parts_columns, all_steps_columns};

use crate::reached::reads::queries::OuterColumn;
use bag_algebra::{Aggr, Arm, ChainStep, Expr, Item};
use perm_values::{List, NoMemory};

/// Those of the expression.
#[cycle(expr_columns)]
pub(crate) fn expr_columns(
    expr: &Expr,
    found: List<OuterColumn>,
) -> Result<List<OuterColumn>, NoMemory>
    ensures { IfOk result (λ columns. columns ≡ found ++ expr_columns expr.now) }
{
    match expr {
        Expr::Col { level, place } => with_column(*level, *place, found),
        Expr::Lit { .. } => Ok(found),
        Expr::Op { parts, .. } => parts_columns(parts.as_slice(), found),
        Expr::Chain { first, steps } => {
            let found = expr_columns(first.get(), found)?;
            steps_columns(steps.as_slice(), found)
        }
        Expr::Case { arms, otherwise } => {
            let found = arms_columns(arms.as_slice(), found)?;
            expr_columns(otherwise.get(), found)
        }
        Expr::Sub { .. } => Ok(found),
        Expr::IsNull { part } => expr_columns(part.get(), found),
        Expr::IsTruth { part, .. } => expr_columns(part.get(), found),
        Expr::Same { first, second } => {
            let found = expr_columns(first.get(), found)?;
            expr_columns(second.get(), found)
        }
    }
}

#[cycle(expr_columns)]
fn parts_columns(parts: &[Expr], found: List<OuterColumn>) -> Result<List<OuterColumn>, NoMemory>
    ensures { IfOk result (λ columns. columns ≡ found ++ all_parts_columns parts.now) }
{
    let mut columns = found;
    for part in parts {
        columns = expr_columns(part, columns)?;
    }
    Ok(columns)
}

#[cycle(expr_columns)]
fn steps_columns(
    steps: &[ChainStep],
    found: List<OuterColumn>,
) -> Result<List<OuterColumn>, NoMemory>
    ensures { IfOk result (λ columns. columns ≡ found ++ all_steps_columns steps.now) }
{
    let mut columns = found;
    for step in steps {
        columns = expr_columns(&step.part, columns)?;
    }
    Ok(columns)
}

#[cycle(expr_columns)]
fn arms_columns(arms: &[Arm], found: List<OuterColumn>) -> Result<List<OuterColumn>, NoMemory>
    ensures { IfOk result (λ columns. columns ≡ found ++ all_arms_columns arms.now) }
{
    let mut columns = found;
    for arm in arms {
        columns = expr_columns(&arm.condition, columns)?;
        columns = expr_columns(&arm.value, columns)?;
    }
    Ok(columns)
}

fn with_column(
    level: usize,
    place: usize,
    found: List<OuterColumn>,
) -> Result<List<OuterColumn>, NoMemory>
    ensures { IfOk result (λ columns. columns ≡ found ++ column_at level place ∷ []) }
{
    let mut columns = found;
    columns.push(OuterColumn { level, place })?;
    Ok(columns)
}

/// Those of a part that may be left out.
pub(crate) fn option_columns(
    part: &Option<Expr>,
    found: List<OuterColumn>,
) -> Result<List<OuterColumn>, NoMemory>
    ensures { IfOk result (λ columns. columns ≡ found ++ option_columns part.now) }
{
    match part {
        Some(part) => expr_columns(part, found),
        None => Ok(found),
    }
}

/// Those of all items.
pub(crate) fn items_columns(
    items: &[Item],
    found: List<OuterColumn>,
) -> Result<List<OuterColumn>, NoMemory>
    ensures { IfOk result (λ columns. columns ≡ found ++ items_columns items.now) }
{
    let mut columns = found;
    for item in items {
        columns = expr_columns(&item.expr, columns)?;
    }
    Ok(columns)
}

/// Those of the arguments of all aggregates.
pub(crate) fn aggregates_columns(
    aggregates: &[Aggr],
    found: List<OuterColumn>,
) -> Result<List<OuterColumn>, NoMemory>
    ensures { IfOk result (λ columns. columns ≡ found ++ aggregates_columns aggregates.now) }
{
    let mut columns = found;
    for aggregate in aggregates {
        columns = option_columns(&aggregate.argument, columns)?;
    }
    Ok(columns)
}
