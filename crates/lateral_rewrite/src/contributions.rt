//! Rows beside the contributions of sublinks.
ghost use Rattle.std.specs.Prelude.{◌≡◌, IfOk, length};
ghost use Rattle.lateral_rewrite.specs.Dependent.{all_beside, all_contributed, chosen_beside, contributed};

use crate::choices::{Choice, choice_of};
use crate::sides::{beside, chosen_provenance, provenance, valued};
use bag_algebra::{Expr, Query, Sublink, exact_width};
use perm_values::NoMemory;
use rewrite_core::columns_kept;
use std::alloc::Global;

/// The rows, and for each sublink in turn its contributions.
pub(crate) fn with_contributions(
    alloc: Global,
    rows: Query,
    standing: &[Sublink],
    rewritings: &[Query],
) -> Result<Query, NoMemory>
    requires rewritten { length standing.now ≡ length rewritings.now }
    ensures { IfOk result (λ p. p ≡ all_contributed rows standing.now rewritings.now) }
{
    let mut whole = rows;
    for at in 0..standing.len() {
        whole = with_contribution(alloc, whole, &standing[at], &rewritings[at])?;
    }
    Ok(whole)
}

fn with_contribution(
    alloc: Global,
    rows: Query,
    standing: &Sublink,
    rewriting: &Query,
) -> Result<Query, NoMemory>
    ensures { IfOk result (λ p. p ≡ contributed rows standing.now rewriting.now) }
{
    match choice_of(standing.kind) {
        None => all_beside(alloc, rows, standing, rewriting),
        Some(choice) => match &standing.tested {
            None => all_beside(alloc, rows, standing, rewriting),
            Some(operand) => chosen_beside(alloc, rows, standing, operand, choice, rewriting),
        },
    }
}

/// The rows beside the provenance of all rows of the sublink's query.
fn all_beside(
    alloc: Global,
    rows: Query,
    standing: &Sublink,
    rewriting: &Query,
) -> Result<Query, NoMemory>
    ensures { IfOk result (λ p. p ≡ all_beside rows standing.now rewriting.now) }
{
    let Ok(right) = provenance(alloc, standing, rewriting) else {
        drop(rows);
        return Err(NoMemory);
    };
    beside(alloc, rows, right)
}

/// The rows beside the provenance of those rows of the sublink's query that contribute.
fn chosen_beside(
    alloc: Global,
    rows: Query,
    standing: &Sublink,
    operand: &Expr,
    choice: Choice,
    rewriting: &Query,
) -> Result<Query, NoMemory>
    ensures { IfOk result (λ p. p ≡ chosen_beside choice operand.now rows standing.now rewriting.now) }
{
    let Ok(place) = exact_width(&rows) else {
        drop(rows);
        return Err(NoMemory);
    };
    let Ok(right) = chosen_provenance(alloc, choice, place, standing, rewriting) else {
        drop(rows);
        return Err(NoMemory);
    };
    let Ok(left) = valued(alloc, rows, standing, operand) else {
        drop(right);
        return Err(NoMemory);
    };
    let pairs = beside(alloc, left, right)?;
    columns_kept(alloc, pairs, place, 2)
}
