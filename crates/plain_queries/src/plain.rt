//! A plain query in the place of one with PROVENANCE.
ghost use Rattle.std.specs.Prelude.{◌≡◌, true, IfOk};
ghost use Rattle.bag_algebra.specs.Rewriting.{is_plain, Stands};
ghost use Rattle.bag_algebra.specs.declared.query.Query.{Query};
ghost use Rattle.folded_literals.specs.Simple.{is_simple};

use crate::alike::same_query;
use bag_algebra::Query;
use perm_values::NoMemory;
use rewrite_driver::eliminate;
use simplifier::{folded_query, tests_lowered};
use std::alloc::Global;

/// Tests aren't lowered more often: so there is an end, whatever the rules do.
const ROUNDS: usize = 8;

/// A plain query that stands for the given one, and is simple: what is run for it, and what is printed of it. Its tests are
/// lowered until that changes nothing, since what one round has moved the next may move on, but no more than eight times. It
/// fails only for want of memory.
pub fn plain_query(alloc: Global, query: &Query) -> Result<Query, NoMemory>
    ensures stands { IfOk result (λ plain. Stands query.now plain) }
    ensures simple { IfOk result (λ plain. is_simple plain ≡ true) }
{
    let mut simple = first_query(alloc, query)?;
    'rounds: for _round in 0..ROUNDS {
        let (simpler, is_settled) = round(alloc, simple)?;
        if is_settled {
            return Ok(simpler);
        }
        simple = simpler;
    }
    Ok(simple)
}

/// A simple query that stands for the given one, with its tests where they came to stand.
fn first_query(alloc: Global, query: &Query) -> Result<Query, NoMemory>
    ensures stands { IfOk result (λ plain. Stands query.now plain) }
    ensures simple { IfOk result (λ plain. is_simple plain ≡ true) }
{
    folded(alloc, eliminate(alloc, query))
}

/// What stands for the query once its tests are lowered, and is simple; and whether that is the very query.
fn round(alloc: Global, query: Query) -> Result<(Query, bool), NoMemory>
    requires plain { is_plain query ≡ true }
    requires simple { is_simple query ≡ true }
    ensures stands { (q : Query) → Stands q query → IfOk result (λ made. Stands q made.0) }
    ensures simple { IfOk result (λ made. is_simple made.0 ≡ true) }
{
    let lowered = tests_lowered(alloc, &query);
    if is_same(&query, &lowered) {
        drop(lowered);
        return Ok((query, true));
    }
    drop(query);
    let simpler = folded(alloc, lowered)?;
    Ok((simpler, false))
}

fn is_same(query: &Query, lowered: &Result<Query, NoMemory>) -> bool {
    match lowered {
        Ok(lowered) => same_query(query, lowered),
        Err(_) => false,
    }
}

/// What stands for whatever the query stands for, and is simple. It fails where the query failed, and for want of memory.
fn folded(alloc: Global, query: Result<Query, NoMemory>) -> Result<Query, NoMemory>
    requires { IfOk query (λ plain. is_plain plain ≡ true) }
    ensures stands { (q : Query) → IfOk query (λ plain. Stands q plain)
        → IfOk result (λ plain. Stands q plain) }
    ensures simple { IfOk result (λ plain. is_simple plain ≡ true) }
{
    let plain = query?;
    let folded = folded_query(alloc, &plain);
    drop(plain);
    folded
}
