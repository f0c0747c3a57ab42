//! A query over folded expressions: each part over literals alone that meets no fault is its literal.
ghost use Rattle.std.specs.Prelude.{◌≡◌, true, IfOk, IsTrue};
ghost use Rattle.bag_algebra.specs.Rewriting.{is_plain, Stands};
ghost use Rattle.bag_algebra.specs.built.Scopes.{all_plain};
ghost use Rattle.folded_literals.specs.Simple.{is_simple};
ghost use Rattle.folded_literals.specs.built.Simple.{all_simple};
ghost use Rattle.simplifier.specs.Bare.{SubsStandBared};

use crate::bare::bared;
use bag_algebra::{Query, Sublink};
use contribution::table;
use folded_literals::{add_folded, aggregate_folded, filter_folded, join_folded, project_folded};
use perm_values::{List, NoMemory};
use simpler_laws::{
    apply_standing, distinct_once, except_standing, intersect_standing, limit_standing,
    union_standing,
};
use std::alloc::Global;

/// The query over folded expressions, without its sources, filters on TRUE, DISTINCTs over what has no row twice, and
/// projections of which an EXISTS reads nothing. It fails only for want of memory.
#[cycle(folded_query)]
pub fn folded_query(alloc: Global, query: &Query) -> Result<Query, NoMemory>
    requires { IsTrue (is_plain query.now) }
    ensures stands { IfOk result (λ p. Stands query.now p) }
    ensures simple { IfOk result (λ p. is_simple p ≡ true) }
{
    match query {
        Query::Table { id, kinds } => table(alloc, *id, kinds),
        Query::Single => Ok(Query::Single),
        Query::Base { input, .. } => folded_query(alloc, input.get()),
        Query::Filter {
            input,
            condition,
            subs,
        } => {
            let rows = folded_query(alloc, input.get());
            let inside = folded_subs(alloc, subs.as_slice());
            filter_folded(alloc, rows, condition, inside)
        }
        Query::Project { input, items, subs } => {
            let rows = folded_query(alloc, input.get());
            let inside = folded_subs(alloc, subs.as_slice());
            project_folded(alloc, rows, items, inside)
        }
        Query::Join {
            kind,
            left,
            right,
            condition,
            subs,
        } => {
            let lefts = folded_query(alloc, left.get());
            let rights = folded_query(alloc, right.get());
            let inside = folded_subs(alloc, subs.as_slice());
            join_folded(alloc, *kind, lefts, rights, condition, inside)
        }
        Query::Union { all, left, right } => {
            let lefts = folded_query(alloc, left.get());
            let rights = folded_query(alloc, right.get());
            union_standing(alloc, *all, lefts, rights)
        }
        Query::Intersect { all, left, right } => {
            let lefts = folded_query(alloc, left.get());
            let rights = folded_query(alloc, right.get());
            intersect_standing(alloc, *all, lefts, rights)
        }
        Query::Except { all, left, right } => {
            let lefts = folded_query(alloc, left.get());
            let rights = folded_query(alloc, right.get());
            except_standing(alloc, *all, lefts, rights)
        }
        Query::Distinct { input } => distinct_once(alloc, folded_query(alloc, input.get())),
        Query::Aggregate {
            input,
            groups,
            aggregates,
        } => {
            let rows = folded_query(alloc, input.get());
            aggregate_folded(alloc, rows, groups, aggregates)
        }
        Query::Limit { input, keys, count } => {
            let rows = folded_query(alloc, input.get());
            limit_standing(alloc, rows, keys, *count)
        }
        Query::Apply { kind, left, right } => {
            let lefts = folded_query(alloc, left.get());
            let rights = folded_query(alloc, right.get());
            apply_standing(alloc, *kind, lefts, rights)
        }
        Query::Prov { .. } => unreachable!(),
    }
}

/// The sublinks over what stands for their queries, each EXISTS over what decides whether that has a row.
#[cycle(folded_query)]
fn folded_subs(alloc: Global, subs: &[Sublink]) -> Result<List<Sublink>, NoMemory>
    requires { IsTrue (all_plain subs.now) }
    ensures bared { IfOk result (λ others. SubsStandBared subs.now others) }
    ensures simple { IfOk result (λ others. all_simple others ≡ true) }
{
    let mut others = List::new(alloc);
    for sub in subs {
        let query = folded_query(alloc, &sub.query);
        add_folded(alloc, &mut others, sub, query)?;
    }
    Ok(bared(others))
}
