//! Rows beside the contributions of sublinks, by ordinary joins where these serve, and else by dependent joins.
ghost use Rattle.std.specs.Prelude.{◌≡◌, true, IfOk};
ghost use Rattle.bag_algebra.specs.Kinds.{width_of};
ghost use Rattle.bag_algebra.specs.Rewriting.{IsRewrite, is_plain};
ghost use Rattle.bag_algebra.specs.declared.query.Query.{Query};
ghost use Rattle.contribution.specs.Conjunctions.{always};
ghost use Rattle.lateral_rewrite.specs.Dependent.{chosen_beside, contributed, provenance_of};
ghost use Rattle.query_laws.specs.Standing.{SubStands, SubsStand};
ghost use Rattle.rewrite_move.specs.Moved.{Like, SubsFrom, all_moved, matched, moved};
ghost use Rattle.rewrite_move.specs.Traced.{query_from};
ghost use Rattle.query_laws.specs.spines.Spines.{IsBeside, IsJoined};

use crate::below::{Origin, query_from};
use crate::forced::forces;
use crate::known::{beside_matching, beside_nothing};
use crate::share::{Share, share_of};
use bag_algebra::{Expr, Query, Sublink, exact_width};
use contribution::always;
use lateral_rewrite::{Choice, choice_of, chosen_provenance, valued};
use null_logic::Truth;
use perm_values::{Copyable, NoMemory};
use query_laws::beside;
use rewrite_core::columns_kept;
use std::alloc::Global;

/// The rows, and for each sublink in turn its contributions, from a rewriting of its query or of what is traced for it. The condition is
/// true of each of the rows, and the sublinks' numbers are those that it has for them.
pub(crate) fn with_contributions(
    alloc: Global,
    origin: Origin,
    rows: Query,
    condition: &Expr,
    subs: &[Sublink],
    standing: &[Sublink],
    rewritings: &[Query],
) -> Result<Query, NoMemory>
    requires plain { Like rows rows }
    requires standing { SubsStand subs.now standing.now }
    requires given { SubsFrom origin subs.now rewritings.now }
    ensures { IfOk result (λ p.
        Like (all_moved origin condition.now 0 rows subs.now standing.now rewritings.now) p) }
{
    let mut whole = rows;
    for at in 0..subs.len() {
        let known = forces(condition, at);
        whole = with_contribution(
            alloc,
            origin,
            whole,
            known,
            &subs[at],
            &standing[at],
            &rewritings[at],
        )?;
    }
    Ok(whole)
}

/// Likewise of rows of which no condition is known to be true.
pub(crate) fn with_all_contributions(
    alloc: Global,
    origin: Origin,
    rows: Query,
    subs: &[Sublink],
    standing: &[Sublink],
    rewritings: &[Query],
) -> Result<Query, NoMemory>
    requires plain { Like rows rows }
    requires standing { SubsStand subs.now standing.now }
    requires given { SubsFrom origin subs.now rewritings.now }
    ensures { IfOk result (λ p.
        Like (all_moved origin always 0 rows subs.now standing.now rewritings.now) p) }
{
    let condition = always();
    with_contributions(alloc, origin, rows, &condition, subs, standing, rewritings)
}

/// The rows beside the contributions of a sublink that has this truth on each of them, if one is known.
fn with_contribution(
    alloc: Global,
    origin: Origin,
    rows: Query,
    known: Option<Truth>,
    sub: &Sublink,
    standing: &Sublink,
    rewriting: &Query,
) -> Result<Query, NoMemory>
    requires standing { SubStands sub.now standing.now }
    requires given { IsRewrite (query_from origin sub.now) rewriting.now }
    ensures { (whole : Query) → Like whole rows →
        IfOk result (λ p. Like (moved origin known whole sub.now standing.now rewriting.now) p) }
{
    match share_of(sub.kind, known) {
        Share::NoRow => beside_nothing(alloc, rows, query_from(origin, sub), rewriting),
        Share::AllRows => beside_all(alloc, rows, query_from(origin, sub), rewriting),
        Share::MatchingRows(choice) => beside_matched(alloc, rows, standing, choice, rewriting),
        Share::ByValue => beside_compared(alloc, rows, standing, rewriting),
    }
}

/// The rows beside the provenance of those rows that compare with the truth of the choice.
fn beside_matched(
    alloc: Global,
    rows: Query,
    standing: &Sublink,
    choice: Choice,
    rewriting: &Query,
) -> Result<Query, NoMemory>
    requires plain { is_plain rewriting.now ≡ true }
    ensures { (whole : Query) → Like whole rows →
        IfOk result (λ p. Like (matched choice standing.now.tested whole standing.now rewriting.now) p) }
{
    match &standing.tested {
        None => beside_all(alloc, rows, &standing.query, rewriting),
        Some(operand) => beside_matching(alloc, rows, standing, operand, choice, rewriting),
    }
}

/// The rows beside the provenance of all rows of the rewriting of a query.
fn beside_all(
    alloc: Global,
    rows: Query,
    query: &Query,
    rewriting: &Query,
) -> Result<Query, NoMemory>
    ensures beside { IfOk result (λ p. IsBeside rows (provenance_of rewriting.now (width_of query.now)) p) }
    ensures joined { IfOk result (λ p. IsJoined rows (provenance_of rewriting.now (width_of query.now)) p) }
{
    let Ok(right) = provenance(alloc, query, rewriting) else {
        drop(rows);
        return Err(NoMemory);
    };
    beside(alloc, rows, right)
}

/// The provenance columns of the rewriting of a query.
fn provenance(alloc: Global, query: &Query, rewriting: &Query) -> Result<Query, NoMemory>
    ensures { IfOk result (λ p. p ≡ provenance_of rewriting.now (width_of query.now)) }
{
    let own = exact_width(query)?;
    let rows = rewriting.copy(alloc)?;
    columns_kept(alloc, rows, 0, own)
}

/// The rows beside the provenance of those rows that an ANY or ALL lets contribute.
fn beside_compared(
    alloc: Global,
    rows: Query,
    standing: &Sublink,
    rewriting: &Query,
) -> Result<Query, NoMemory>
    requires plain { is_plain rewriting.now ≡ true }
    requires query { is_plain standing.now.query ≡ true }
    ensures { (whole : Query) → Like whole rows →
        IfOk result (λ p. Like (contributed whole standing.now rewriting.now) p) }
{
    match choice_of(standing.kind) {
        None => beside_all(alloc, rows, &standing.query, rewriting),
        Some(choice) => match &standing.tested {
            None => beside_all(alloc, rows, &standing.query, rewriting),
            Some(operand) => beside_chosen(alloc, rows, standing, operand, choice, rewriting),
        },
    }
}

/// The rows beside the provenance of those rows that the value of the sublink chooses.
fn beside_chosen(
    alloc: Global,
    rows: Query,
    standing: &Sublink,
    operand: &Expr,
    choice: Choice,
    rewriting: &Query,
) -> Result<Query, NoMemory>
    requires plain { is_plain rewriting.now ≡ true }
    requires query { is_plain standing.now.query ≡ true }
    ensures { (whole : Query) → Like whole rows →
        IfOk result (λ p. Like (chosen_beside choice operand.now whole standing.now rewriting.now) p) }
{
    let Ok(place) = exact_width(&rows) else {
        drop(rows);
        return Err(NoMemory);
    };
    let Ok(right) = chosen_provenance(alloc, choice, place, standing, rewriting) else {
        drop(rows);
        return Err(NoMemory);
    };
    let Ok(left) = valued(alloc, rows, standing, operand) else {
        drop(right);
        return Err(NoMemory);
    };
    let pairs = beside(alloc, left, right)?;
    columns_kept(alloc, pairs, place, 2)
}
