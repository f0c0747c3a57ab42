//! Rows beside the candidates of sublinks that are contributions of these.
ghost use Rattle.std.specs.Prelude.{◌≡◌, ◌∷◌, ◌++◌, [], IfOk, OnOk, IsTrue, length};
ghost use Rattle.bag_algebra.specs.Kinds.{width_of};
ghost use Rattle.bag_algebra.specs.Scoped.{over_tables};
ghost use Rattle.bag_algebra.specs.declared.expr.Expr.TheVariants.{IsTruth, Sub};
ghost use Rattle.bag_algebra.specs.declared.query.JoinKind.TheVariants.{Inner};
ghost use Rattle.contribution.specs.Conjunctions.{always};
ghost use Rattle.contribution.specs.CrossBase.{cross_base_of};
ghost use Rattle.rewrite_core.specs.rewritings.KeptColumns.{pairs_of};
ghost use Rattle.bag_algebra.specs.built.Scopes.{all_over_tables};
ghost use Rattle.rewrite_sublink.specs.Candidates.{all_contributed, contributed, deciding, deciding_arm, exists_in, matching, sub_over, test_condition, test_subs, tested};

use crate::decisions::deciding;
use crate::matching::{CandidateColumns, first_column, matching};
use bag_algebra::{Arm, Expr, JoinKind, Query, SubKind, Sublink, exact_width};
use contribution::{always, cross_base, join_on};
use null_logic::Truth;
use perm_values::{Boxed, Copyable, List, NoMemory};
use std::alloc::Global;

/// The rows, and for each sublink in turn those rows of its cross base that are one of its contributions.
pub(crate) fn with_contributions(
    alloc: Global,
    rows: Query,
    subs: &[Sublink],
    standing: &[Sublink],
    rewritings: &[Query],
) -> Result<Query, NoMemory>
    requires over_tables { IsTrue (all_over_tables subs.now) }
    requires as_many { length subs.now ≡ length standing.now }
    requires rewritten { length subs.now ≡ length rewritings.now }
    ensures { IfOk result (λ p. p ≡ all_contributed rows subs.now standing.now rewritings.now) }
{
    let mut whole = rows;
    for at in 0..subs.len() {
        whole = with_contribution(alloc, whole, &subs[at], &standing[at], &rewritings[at])?;
    }
    Ok(whole)
}

fn with_contribution(
    alloc: Global,
    rows: Query,
    sub: &Sublink,
    standing: &Sublink,
    rewriting: &Query,
) -> Result<Query, NoMemory>
    requires { IsTrue (over_tables sub.now.query) }
    ensures { IfOk result (λ p.
        p ≡ contributed rows (cross_base_of sub.now.query) standing.now rewriting.now) }
{
    let Candidates { pairs, columns } = beside_candidates(alloc, rows, sub, standing)?;
    let Ok(found) = matching(alloc, rewriting, columns) else {
        drop(pairs);
        return Err(NoMemory);
    };
    let whole = tested(alloc, pairs, standing, &found);
    drop(found);
    whole
}

/// Rows beside the candidates of a sublink, and where these stand.
struct Candidates {
    pairs: Query,
    columns: CandidateColumns,
}

fn beside_candidates(
    alloc: Global,
    rows: Query,
    sub: &Sublink,
    standing: &Sublink,
) -> Result<Candidates, NoMemory>
    requires { IsTrue (over_tables sub.now.query) }
    ensures pairs { IfOk result (λ made.
        made.pairs ≡ pairs_of Inner rows (cross_base_of sub.now.query) always) }
    ensures count { IfOk result (λ made. made.columns.count ≡ width_of (cross_base_of sub.now.query)) }
    ensures from { IfOk result (λ made. made.columns.from ≡ width_of rows) }
    ensures own { IfOk result (λ made. made.columns.own ≡ width_of standing.now.query) }
{
    let Ok(base) = cross_base(alloc, &sub.query) else {
        drop(rows);
        return Err(NoMemory);
    };
    let Ok(columns) = candidate_columns(&rows, &base, standing) else {
        drop(rows);
        drop(base);
        return Err(NoMemory);
    };
    let pairs = join_on(alloc, JoinKind::Inner, rows, base, always())?;
    Ok(Candidates { pairs, columns })
}

/// The base's columns stand behind the rows', and in the rewriting behind the sublink's own.
fn candidate_columns(
    rows: &Query,
    base: &Query,
    standing: &Sublink,
) -> Result<CandidateColumns, NoMemory>
    ensures count { IfOk result (λ columns. columns.count ≡ width_of base.now) }
    ensures from { IfOk result (λ columns. columns.from ≡ width_of rows.now) }
    ensures own { IfOk result (λ columns. columns.own ≡ width_of standing.now.query) }
{
    let count = exact_width(base)?;
    let from = exact_width(rows)?;
    let own = exact_width(&standing.query)?;
    Ok(CandidateColumns { count, from, own })
}

/// The pairs whose candidate passes the test.
fn tested(alloc: Global, pairs: Query, standing: &Sublink, found: &Query) -> Result<Query, NoMemory>
    ensures { IfOk result (λ p. p ≡ tested pairs standing.now found.now) }
{
    let Ok(test) = test_of(alloc, standing, found) else {
        drop(pairs);
        return Err(NoMemory);
    };
    let Test { condition, subs } = test;
    Query::filter(alloc, pairs, condition, subs)
}

/// A condition and the sublinks that it reads.
struct Test {
    condition: Expr,
    subs: List<Sublink>,
}

fn test_of(alloc: Global, standing: &Sublink, found: &Query) -> Result<Test, NoMemory>
    ensures condition { IfOk result (λ test. test.condition ≡ test_condition (deciding standing.now.kind)) }
    ensures subs { IfOk result (λ test.
        test.subs ≡ test_subs (deciding standing.now.kind) standing.now found.now) }
{
    match deciding(standing.kind) {
        None => {
            let subs = existing(alloc, found)?;
            let condition = Expr::Sub { number: 0 };
            Ok(Test { condition, subs })
        }
        Some(truth) => {
            let subs = with_decision(alloc, standing, found)?;
            let condition = decided(alloc, truth)?;
            Ok(Test { condition, subs })
        }
    }
}

/// That there is a row.
fn existing(alloc: Global, found: &Query) -> Result<List<Sublink>, NoMemory>
    ensures { IfOk result (λ subs. subs ≡ exists_in found.now ∷ []) }
{
    let mut subs = List::new(alloc);
    add_existing(alloc, found, &mut subs)?;
    Ok(subs)
}

/// That there is a row, the sublink, and the sublink over these rows alone.
fn with_decision(
    alloc: Global,
    standing: &Sublink,
    found: &Query,
) -> Result<List<Sublink>, NoMemory>
    ensures { IfOk result (λ subs.
        subs ≡ exists_in found.now ∷ standing.now ∷ sub_over standing.now found.now ∷ []) }
{
    let mut subs = existing(alloc, found)?;
    add_same(alloc, standing, &mut subs)?;
    add_over(alloc, standing, found, &mut subs)?;
    Ok(subs)
}

fn add_existing(alloc: Global, found: &Query, subs: &mut List<Sublink>) -> Result<(), NoMemory>
    ensures { OnOk result (subs.new ≡ subs.old ++ exists_in found.now ∷ []) }
{
    let query = found.copy(alloc)?;
    subs.push(Sublink {
        kind: SubKind::Exists,
        tested: None,
        query,
    })
}

fn add_same(alloc: Global, standing: &Sublink, subs: &mut List<Sublink>) -> Result<(), NoMemory>
    ensures { OnOk result (subs.new ≡ subs.old ++ standing.now ∷ []) }
{
    let copy = standing.copy(alloc)?;
    subs.push(copy)
}

fn add_over(
    alloc: Global,
    standing: &Sublink,
    found: &Query,
    subs: &mut List<Sublink>,
) -> Result<(), NoMemory>
    ensures { OnOk result (subs.new ≡ subs.old ++ sub_over standing.now found.now ∷ []) }
{
    let sub = sub_over(alloc, standing, found)?;
    subs.push(sub)
}

fn sub_over(alloc: Global, standing: &Sublink, found: &Query) -> Result<Sublink, NoMemory>
    ensures { IfOk result (λ sub. sub ≡ sub_over standing.now found.now) }
{
    let tested = standing.tested.copy(alloc)?;
    let Ok(query) = first_column(alloc, found) else {
        drop(tested);
        return Err(NoMemory);
    };
    Ok(Sublink {
        kind: standing.kind,
        tested,
        query,
    })
}

/// Where the sublink has the truth that decides, whether it has that over the matching rows too; else whether there is one.
fn decided(alloc: Global, truth: Truth) -> Result<Expr, NoMemory>
    ensures { IfOk result (λ condition. condition ≡ test_condition (Some truth)) }
{
    let mut arms = List::new(alloc);
    arms.push(deciding_arm(alloc, truth)?)?;
    let otherwise = Boxed::new(alloc, Expr::Sub { number: 0 })?;
    Ok(Expr::Case { arms, otherwise })
}

fn deciding_arm(alloc: Global, truth: Truth) -> Result<Arm, NoMemory>
    ensures { IfOk result (λ arm. arm ≡ deciding_arm truth) }
{
    let condition = has_truth(alloc, truth, 1)?;
    let Ok(value) = has_truth(alloc, truth, 2) else {
        drop(condition);
        return Err(NoMemory);
    };
    Ok(Arm { condition, value })
}

fn has_truth(alloc: Global, truth: Truth, number: usize) -> Result<Expr, NoMemory>
    ensures { IfOk result (λ test. test ≡ IsTruth truth (Sub number)) }
{
    let part = Boxed::new(alloc, Expr::Sub { number })?;
    Ok(Expr::IsTruth { truth, part })
}
