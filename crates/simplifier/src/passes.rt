//! One pass over a query, which takes tests of rows down to where they can be made first.
ghost use Rattle.std.specs.Prelude.{◌≡◌, [], IfOk, IsTrue};
ghost use Rattle.bag_algebra.specs.FaultFree.{faultless};
ghost use Rattle.bag_algebra.specs.Rewriting.{is_plain, Stands};
ghost use Rattle.bag_algebra.specs.built.FaultFree.{all_fault_free, all_parts_faultless};
ghost use Rattle.bag_algebra.specs.built.Scopes.{all_plain};
ghost use Rattle.bag_algebra.specs.declared.query.JoinKind.TheVariants.{Inner};
ghost use Rattle.bag_algebra.specs.declared.query.Query.{Query};
ghost use Rattle.query_laws.specs.Standing.{SubsStand};
ghost use Rattle.simpler_laws.specs.Tested.{tested};
ghost use Rattle.folded_literals.specs.Simple.{is_simple};

use crate::folding::folded_query;
use crate::projections::whole_dropped;
use crate::raising::{above, filter_node, join_node, pairs_where, rows_where};
use bag_algebra::{Expr, JoinKind, Query, Sublink, all_fault_free, faultless};
use contribution::table;
use perm_values::{List, NoMemory};
use simpler_laws::{
    add_standing, aggregate_standing, apply_standing, distinct_once, except_standing, filter_parts,
    intersect_standing, join_sides, limit_standing, lowered, project_merged, union_standing,
    with_conjuncts,
};
use std::alloc::Global;

/// A plain query that stands for the query, with joins on the tests that filters above them make of pairs of rows, and with
/// tests of one side of an inner join below it on that side. An EXISTS is over what stands below projections that can't fault.
/// What may fault stays where it is. It stands for whatever the query stands for, and is simple. It fails only for want of
/// memory.
pub fn simplify(alloc: Global, query: Query) -> Result<Query, NoMemory>
    requires { IsTrue (is_plain query) }
    ensures stands { IfOk result (λ p. Stands query p) }
    ensures onward { (q : Query) → Stands q query → IfOk result (λ p. Stands q p) }
    ensures simple { IfOk result (λ p. IsTrue (is_simple p)) }
{
    let folded = folded_query(alloc, &query);
    drop(query);
    folded_again(alloc, lowered_tests(alloc, folded))
}

/// What stands for whatever the query stands for, folded once more: a literal may have come into a column's place. It fails
/// where the query failed, and for want of memory.
fn folded_again(alloc: Global, query: Result<Query, NoMemory>) -> Result<Query, NoMemory>
    requires { IfOk query (λ b. IsTrue (is_plain b)) }
    ensures stands { (q : Query) → IfOk query (λ b. Stands q b) → IfOk result (λ p. Stands q p) }
    ensures simple { IfOk result (λ p. IsTrue (is_simple p)) }
{
    let given = query?;
    let made = folded_query(alloc, &given);
    drop(given);
    made
}

/// What stands for whatever the query stands for, with its tests where they can be made first. It fails where the query
/// failed, and for want of memory.
fn lowered_tests(alloc: Global, query: Result<Query, NoMemory>) -> Result<Query, NoMemory>
    requires { IfOk query (λ b. IsTrue (is_plain b)) }
    ensures { (q : Query) → IfOk query (λ b. Stands q b) → IfOk result (λ p. Stands q p) }
{
    let query = query?;
    let simpler = tests_lowered(alloc, &query);
    drop(query);
    simpler
}

/// A plain query that stands for the query, with its tests where they can be made first. It fails only for want of memory.
pub fn tests_lowered(alloc: Global, query: &Query) -> Result<Query, NoMemory>
    requires { IsTrue (is_plain query.now) }
    ensures { IfOk result (λ p. Stands query.now p) }
{
    under(alloc, query, &[])
}

/// What stands for the query's rows of which all tests are true. The tests can't fault.
#[cycle(under)]
fn under(alloc: Global, query: &Query, tests: &[Expr]) -> Result<Query, NoMemory>
    requires { IsTrue (is_plain query.now) × IsTrue (all_parts_faultless tests.now) }
    ensures { IfOk result (λ p. Stands (tested query.now tests.now) p) }
{
    match query {
        Query::Filter {
            input,
            condition,
            subs,
        } => {
            if only_tests(condition, subs.as_slice()) {
                let all = with_conjuncts(alloc, condition, tests)?;
                under(alloc, input.get(), all.as_slice())
            } else if is_quiet(condition, subs.as_slice()) {
                let parts = filter_parts(alloc, condition, tests)?;
                let rows = under(alloc, input.get(), parts.below.as_slice());
                let inside = nodes(alloc, subs.as_slice());
                rows_where(alloc, rows, parts.above.as_slice(), inside)
            } else {
                above(alloc, node(alloc, query), tests)
            }
        }
        Query::Join {
            kind,
            left,
            right,
            condition,
            subs,
        } => {
            if only_pairs(*kind, condition, subs.as_slice()) {
                let sides = join_sides(alloc, left.get(), right.get(), condition, tests)?;
                let lefts = under(alloc, left.get(), sides.left.as_slice());
                let rights = under(alloc, right.get(), sides.right.as_slice());
                let pairs = pairs_where(alloc, lefts, rights, sides.both.as_slice());
                above(alloc, pairs, sides.around.as_slice())
            } else {
                above(alloc, node(alloc, query), tests)
            }
        }
        Query::Project { input, items, subs } => {
            match lowered(alloc, items.as_slice(), subs.as_slice(), tests)? {
                Some(below) => {
                    let rows = under(alloc, input.get(), below.as_slice());
                    whole_dropped(project_merged(alloc, rows, items, Ok(List::new(alloc))))
                }
                None => above(alloc, node(alloc, query), tests),
            }
        }
        _ => above(alloc, node(alloc, query), tests),
    }
}

/// Whether a filter is no more than tests that can't fault.
fn only_tests(condition: &Expr, subs: &[Sublink]) -> bool
    ensures { IsTrue result → (subs.now ≡ []) × IsTrue (faultless condition.now) }
{
    subs.is_empty() && faultless(condition)
}

/// Whether neither the condition nor the sublinks of a filter can fault.
fn is_quiet(condition: &Expr, subs: &[Sublink]) -> bool
    ensures { IsTrue result → IsTrue (faultless condition.now) × IsTrue (all_fault_free subs.now) }
{
    faultless(condition) && all_fault_free(subs)
}

/// Whether a join has no more than the pairs of which tests are true that can't fault.
fn only_pairs(kind: JoinKind, condition: &Expr, subs: &[Sublink]) -> bool
    ensures { IsTrue result → (kind ≡ Inner) × ((subs.now ≡ []) × IsTrue (faultless condition.now)) }
{
    matches!(kind, JoinKind::Inner) && only_tests(condition, subs)
}

/// What stands for the query, by what stands for its parts.
#[cycle(under)]
fn node(alloc: Global, query: &Query) -> Result<Query, NoMemory>
    requires { IsTrue (is_plain query.now) }
    ensures { IfOk result (λ p. Stands query.now p) }
{
    match query {
        Query::Table { id, kinds } => table(alloc, *id, kinds),
        Query::Single => Ok(Query::Single),
        Query::Base { input, .. } => under(alloc, input.get(), &[]),
        Query::Filter {
            input,
            condition,
            subs,
        } => {
            let rows = under(alloc, input.get(), &[]);
            let inside = nodes(alloc, subs.as_slice());
            filter_node(alloc, rows, condition, inside)
        }
        Query::Project { input, items, subs } => {
            let rows = under(alloc, input.get(), &[]);
            let inside = nodes(alloc, subs.as_slice());
            whole_dropped(project_merged(alloc, rows, items, inside))
        }
        Query::Join {
            kind,
            left,
            right,
            condition,
            subs,
        } => {
            let lefts = under(alloc, left.get(), &[]);
            let rights = under(alloc, right.get(), &[]);
            let inside = nodes(alloc, subs.as_slice());
            join_node(alloc, *kind, lefts, rights, condition, inside)
        }
        Query::Union { all, left, right } => {
            let lefts = under(alloc, left.get(), &[]);
            let rights = under(alloc, right.get(), &[]);
            union_standing(alloc, *all, lefts, rights)
        }
        Query::Intersect { all, left, right } => {
            let lefts = under(alloc, left.get(), &[]);
            let rights = under(alloc, right.get(), &[]);
            intersect_standing(alloc, *all, lefts, rights)
        }
        Query::Except { all, left, right } => {
            let lefts = under(alloc, left.get(), &[]);
            let rights = under(alloc, right.get(), &[]);
            except_standing(alloc, *all, lefts, rights)
        }
        Query::Distinct { input } => distinct_once(alloc, under(alloc, input.get(), &[])),
        Query::Aggregate {
            input,
            groups,
            aggregates,
        } => {
            let rows = under(alloc, input.get(), &[]);
            aggregate_standing(alloc, rows, groups, aggregates)
        }
        Query::Limit { input, keys, count } => {
            let rows = under(alloc, input.get(), &[]);
            limit_standing(alloc, rows, keys, *count)
        }
        Query::Apply { kind, left, right } => {
            let lefts = under(alloc, left.get(), &[]);
            let rights = under(alloc, right.get(), &[]);
            apply_standing(alloc, *kind, lefts, rights)
        }
        Query::Prov { .. } => unreachable!(),
    }
}

/// The sublinks over what stands for their queries.
#[cycle(under)]
fn nodes(alloc: Global, subs: &[Sublink]) -> Result<List<Sublink>, NoMemory>
    requires { IsTrue (all_plain subs.now) }
    ensures { IfOk result (λ others. SubsStand subs.now others) }
{
    let mut others = List::new(alloc);
    for sub in subs {
        let query = under(alloc, &sub.query, &[]);
        add_standing(alloc, &mut others, sub, query)?;
    }
    Ok(others)
}
