//! What stands for a query, and what is a rewriting of it.
ghost use Rattle.std.specs.Prelude.{◌≡◌, IfOk};
ghost use Rattle.bag_algebra.specs.Rewriting.{Stands};
ghost use Rattle.bag_algebra.specs.declared.query.Query.TheVariants.{Prov};
ghost use Rattle.bag_algebra.specs.declared.query.Query.{Query};
ghost use Rattle.rewrite_core.specs.rewritings.OpenSublinks.{NoOpenSublink};
ghost use Rattle.rewrite_driver.specs.FirstColumns.{KeepsRows};
ghost use Rattle.rewrite_driver.specs.KeptClosed.{RewritesClosed, StandsClosed, SubsStandClosed, SubsTracedClosed};
ghost use Rattle.rewrite_driver.specs.Places.{has_places};
ghost use Rattle.rewrite_move.specs.Traced.{below_groups, traced_of};

use crate::rules::{
    aggregate_rule, apply_rule, base_rule, distinct_rule, except_rule, filter_rule, intersect_rule,
    join_rule, limit_rule, project_rule, union_rule,
};
use crate::standing::{
    aggregate_standing, apply_standing, distinct_standing, except_standing, filter_standing,
    intersect_standing, join_standing, limit_standing, project_standing, provenance_standing,
    union_standing,
};
use crate::sublinks::{add_rewriting, add_standing};
use bag_algebra::{Query, SubKind, Sublink};
use contribution::{shape, table};
use perm_values::{List, NoMemory};
use std::alloc::Global;

/// A plain query that stands for the query, in whose place it may run: of the same kinds, well formed under all outer kinds
/// under which the query is, reading the query's tables alone, with the same rows, as often, or the same faults, on every
/// database and under all outer rows that fit. Where the query is the PROVENANCE of another, its first columns are, as a set,
/// the other's rows. Where no sublink of the query is open, none of what stands for it is: no sublink is made, and what is made for
/// one is a join. It fails only for want of memory.
pub fn eliminate(alloc: Global, query: &Query) -> Result<Query, NoMemory>
    ensures stands { IfOk result (λ plain. Stands query.now plain) }
    ensures no_row_lost { (q : Query) → query.now ≡ Prov q → IfOk result (λ plain. KeepsRows q plain) }
    ensures none_open { IfOk result (λ plain. NoOpenSublink query.now → NoOpenSublink plain) }
{
    stand(alloc, query)
}

/// A plain query that stands for the query. Each arm hands on the results of its calls as they are: a query that is at hand
/// where another call fails makes the proof far longer.
#[cycle(stand)]
fn stand(alloc: Global, query: &Query) -> Result<Query, NoMemory>
    ensures { IfOk result (λ plain. StandsClosed query.now plain) }
{
    match query {
        Query::Table { id, kinds } => table(alloc, *id, kinds),
        Query::Single => Ok(Query::Single),
        Query::Base { input, .. } => stand(alloc, input.get()),
        Query::Filter {
            input,
            condition,
            subs,
        } => {
            let rows = stand(alloc, input.get());
            let inside = stand_subs(alloc, subs.as_slice());
            filter_standing(alloc, rows, condition, inside)
        }
        Query::Project { input, items, subs } => {
            let rows = stand(alloc, input.get());
            let inside = stand_subs(alloc, subs.as_slice());
            project_standing(alloc, rows, items, inside)
        }
        Query::Join {
            kind,
            left,
            right,
            condition,
            subs,
        } => {
            let lefts = stand(alloc, left.get());
            let rights = stand(alloc, right.get());
            let inside = stand_subs(alloc, subs.as_slice());
            join_standing(alloc, *kind, lefts, rights, condition, inside)
        }
        Query::Union { all, left, right } => {
            let lefts = stand(alloc, left.get());
            let rights = stand(alloc, right.get());
            union_standing(alloc, *all, lefts, rights)
        }
        Query::Intersect { all, left, right } => {
            let lefts = stand(alloc, left.get());
            let rights = stand(alloc, right.get());
            intersect_standing(alloc, *all, lefts, rights)
        }
        Query::Except { all, left, right } => {
            let lefts = stand(alloc, left.get());
            let rights = stand(alloc, right.get());
            except_standing(alloc, *all, lefts, rights)
        }
        Query::Distinct { input } => distinct_standing(alloc, stand(alloc, input.get())),
        Query::Aggregate {
            input,
            groups,
            aggregates,
        } => {
            let rows = stand(alloc, input.get());
            aggregate_standing(alloc, rows, groups, aggregates)
        }
        Query::Limit { input, keys, count } => {
            let rows = stand(alloc, input.get());
            limit_standing(alloc, rows, keys, *count)
        }
        Query::Apply { kind, left, right } => {
            let lefts = stand(alloc, left.get());
            let rights = stand(alloc, right.get());
            apply_standing(alloc, *kind, lefts, rights)
        }
        Query::Prov { input } => provenance_standing(alloc, rewriting(alloc, input.get())),
    }
}

/// The sublinks over what stands for their queries.
#[cycle(stand)]
fn stand_subs(alloc: Global, subs: &[Sublink]) -> Result<List<Sublink>, NoMemory>
    ensures { IfOk result (λ others. SubsStandClosed subs.now others) }
{
    let mut others = List::new(alloc);
    for sub in subs {
        let query = stand(alloc, &sub.query);
        add_standing(alloc, &mut others, sub, query)?;
    }
    Ok(others)
}

/// A rewriting of the query. Where it has no places, what stands for it is one, and so a LIMIT over PROVENANCE doesn't hold
/// that query's rewriting twice.
#[cycle(stand)]
fn rewriting(alloc: Global, query: &Query) -> Result<Query, NoMemory>
    ensures { IfOk result (λ p. RewritesClosed query.now p) }
{
    let found = has_places(alloc, query)?;
    if found {
        by_rule(alloc, query)
    } else {
        stand(alloc, query)
    }
}

/// A rewriting of the query by the rule of its node. Below a source it asks only for what stands, and what has no places by
/// itself is rewritten by what stands for it.
#[cycle(stand)]
fn by_rule(alloc: Global, query: &Query) -> Result<Query, NoMemory>
    ensures { IfOk result (λ p. RewritesClosed query.now p) }
{
    match query {
        Query::Table { .. } => stand(alloc, query),
        Query::Single => stand(alloc, query),
        Query::Base { input, places, .. } => {
            let plain = stand(alloc, input.get());
            base_rule(alloc, plain, places.as_slice())
        }
        Query::Filter {
            input,
            condition,
            subs,
        } => {
            let rows = rewriting(alloc, input.get());
            let inside = stand_subs(alloc, subs.as_slice());
            let traced = rewritten_subs(alloc, subs.as_slice());
            filter_rule(
                alloc,
                input.get(),
                rows,
                condition,
                subs.as_slice(),
                inside,
                traced,
            )
        }
        Query::Project { input, items, subs } => {
            let rows = rewriting(alloc, input.get());
            let inside = stand_subs(alloc, subs.as_slice());
            let traced = rewritten_subs(alloc, subs.as_slice());
            project_rule(
                alloc,
                input.get(),
                rows,
                items.as_slice(),
                subs.as_slice(),
                inside,
                traced,
            )
        }
        Query::Join {
            kind,
            left,
            right,
            condition,
            subs,
        } => {
            let lefts = rewriting(alloc, left.get());
            let rights = rewriting(alloc, right.get());
            let inside = stand_subs(alloc, subs.as_slice());
            let traced = rewritten_subs(alloc, subs.as_slice());
            join_rule(
                alloc,
                *kind,
                left.get(),
                lefts,
                right.get(),
                rights,
                condition,
                subs.as_slice(),
                inside,
                traced,
            )
        }
        Query::Union { all, left, right } => {
            let lefts = rewriting(alloc, left.get());
            let rights = rewriting(alloc, right.get());
            union_rule(alloc, *all, left.get(), lefts, right.get(), rights)
        }
        Query::Intersect { all, left, right } => {
            let lefts = rewriting(alloc, left.get());
            let rights = rewriting(alloc, right.get());
            intersect_rule(alloc, *all, left.get(), lefts, right.get(), rights)
        }
        Query::Except { all, left, right } => {
            let plain_left = stand(alloc, left.get());
            let lefts = rewriting(alloc, left.get());
            let plain_right = stand(alloc, right.get());
            let rights = rewriting(alloc, right.get());
            except_rule(alloc, *all, plain_left, lefts, plain_right, rights)
        }
        Query::Distinct { input } => {
            let rows = rewriting(alloc, input.get());
            distinct_rule(input.get(), rows)
        }
        Query::Aggregate {
            input,
            groups,
            aggregates,
        } => {
            let plain_rows = stand(alloc, input.get());
            let rows = rewriting(alloc, input.get());
            aggregate_rule(
                alloc,
                plain_rows,
                rows,
                groups.as_slice(),
                aggregates.as_slice(),
            )
        }
        Query::Limit { input, keys, count } => {
            let plain_rows = stand(alloc, input.get());
            let rows = rewriting(alloc, input.get());
            limit_rule(alloc, plain_rows, rows, keys.as_slice(), *count)
        }
        Query::Apply { kind, left, right } => {
            let lefts = rewriting(alloc, left.get());
            let rights = rewriting(alloc, right.get());
            apply_rule(alloc, *kind, left.get(), lefts, right.get(), rights)
        }
        Query::Prov { .. } => stand(alloc, query),
    }
}

/// A rewriting of what is traced of each sublink.
#[cycle(stand)]
fn rewritten_subs(alloc: Global, subs: &[Sublink]) -> Result<List<Query>, NoMemory>
    ensures { IfOk result (λ rewritings. SubsTracedClosed subs.now rewritings) }
{
    let mut rewritings = List::new(alloc);
    for sub in subs {
        let query = traced(alloc, sub);
        add_rewriting(&mut rewritings, query)?;
    }
    Ok(rewritings)
}

/// A rewriting of what is traced of the sublink.
#[cycle(stand)]
fn traced(alloc: Global, sub: &Sublink) -> Result<Query, NoMemory>
    ensures { IfOk result (λ p. RewritesClosed (traced_of sub.now) p) }
{
    match sub.kind {
        SubKind::Exists => below_groups(alloc, &sub.query),
        SubKind::Any(_) => rewriting(alloc, &sub.query),
        SubKind::All(_) => rewriting(alloc, &sub.query),
        SubKind::Scalar => below_groups(alloc, &sub.query),
    }
}

/// A rewriting of the query below the DISTINCTs, the groups and the Projects without sublinks at its top: where all rows
/// contribute, their witnesses are those of the rows below, and no group has to be made again to find them.
#[cycle(stand)]
fn below_groups(alloc: Global, query: &Query) -> Result<Query, NoMemory>
    ensures { IfOk result (λ p. RewritesClosed (below_groups query.now) p) }
{
    match query {
        Query::Project { input, subs, .. } => {
            if subs.is_empty() {
                below_groups(alloc, input.get())
            } else {
                rewriting(alloc, query)
            }
        }
        Query::Distinct { input } => below_groups(alloc, input.get()),
        Query::Aggregate { input, .. } => below_groups(alloc, input.get()),
        Query::Table { .. } => rewriting(alloc, query),
        Query::Single => rewriting(alloc, query),
        Query::Base { .. } => rewriting(alloc, query),
        Query::Filter { .. } => rewriting(alloc, query),
        Query::Join { .. } => rewriting(alloc, query),
        Query::Union { .. } => rewriting(alloc, query),
        Query::Intersect { .. } => rewriting(alloc, query),
        Query::Except { .. } => rewriting(alloc, query),
        Query::Limit { .. } => rewriting(alloc, query),
        Query::Apply { .. } => rewriting(alloc, query),
        Query::Prov { .. } => rewriting(alloc, query),
    }
}

/// Whether PROVENANCE of the query has columns of its own. It fails only for want of memory.
fn has_places(alloc: Global, query: &Query) -> Result<bool, NoMemory>
    ensures { IfOk result (λ found. found ≡ has_places query.now) }
{
    let list = shape(alloc, query)?;
    Ok(list.places.len() > 0)
}
