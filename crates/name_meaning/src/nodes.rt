//! Single nodes of resolved expressions and queries, of parts that are made or wanting: what the definition of names makes
//! of them.
//! Queries of parts as they were made. Each part comes as a result, so that what is there is let go here where another part is
//! wanting, and not in the functions that go through a tree.
ghost use Rattle.std.specs.Prelude.{◌≡◌, cond, IfOk, IsOkAnd};
ghost use Rattle.bag_algebra.specs.declared.query.Query.TheVariants.{Prov};
ghost use Rattle.name_meaning.specs.Cores.{distinct_if};
ghost use Rattle.name_meaning.specs.Queries.{limited, set_of};

use bag_algebra::Query;
use perm_values::{Key, List, NoMemory};
use sql_tree::SetWord;
use std::alloc::Global;

mod aggregates;
mod columns;
mod cores;
mod expressions;
mod marks;
mod sublinks;
mod together;
mod wanted;
mod within;

pub use aggregates::{aggregate_of, argument_wanted, count_made};
pub use columns::column_made;
pub use cores::{Clauses, Condition, Listed, core_of};
pub use expressions::{
    add_value, arm_of, between, case, chained, in_list, integer_value, like, null_at, null_tested,
    on_parts, on_two, repeated, same_tested, step_of, text_value, truth_tested, truth_value,
};
pub use marks::{attributes_of, column_names, external, table_plain, table_rows, whole_source};
pub use sublinks::{in_kind, in_list_kind, sublink_of};
pub use together::{beside, with_more};
pub use wanted::{alike_wanted, chain_start, wanted_of};
pub use within::Within;

/// The input's distinct rows, if they are asked for.
pub(crate) fn distinct_if(alloc: Global, distinct: bool, input: Query) -> Result<Query, NoMemory>
    ensures { IfOk result (λ made. made ≡ distinct_if distinct input) }
{
    if !distinct {
        return Ok(input);
    }
    Query::distinct(alloc, input)
}

/// A set operation on what stands before it.
pub fn with_operand(
    alloc: Global,
    word: SetWord,
    all: bool,
    whole: Query,
    operand: Result<Query, NoMemory>,
) -> Result<Query, NoMemory>
    ensures { IfOk result (λ made. IsOkAnd operand (λ operand. made ≡ set_of word all whole operand)) }
{
    let (whole, operand) = beside(whole, operand)?;
    match word {
        SetWord::Union => Query::union(alloc, all, whole, operand),
        SetWord::Except => Query::except(alloc, all, whole, operand),
        SetWord::Intersect => Query::intersect(alloc, all, whole, operand),
    }
}

/// The first rows of the input in the order of the keys, if there is a limit.
fn limited(
    alloc: Global,
    limit: Option<i64>,
    keys: List<Key>,
    input: Query,
) -> Result<Query, NoMemory>
    ensures { IfOk result (λ made. made ≡ limited limit keys input) }
{
    let Some(count) = limit else {
        drop(keys);
        return Ok(input);
    };
    Query::limit(alloc, input, keys, count.unsigned_abs())
}

/// The query of this body, cut by the keys if there is a limit, and with its provenance if it is asked for.
pub fn finished_of(
    alloc: Global,
    body: Result<Query, NoMemory>,
    keys: List<Key>,
    limit: Option<i64>,
    with_provenance: bool,
) -> Result<Query, NoMemory>
    ensures { IfOk result (λ made. IsOkAnd body (λ body.
        made ≡ cond with_provenance (Prov (limited limit keys body)) (limited limit keys body))) }
{
    let (keys, body) = beside(keys, body)?;
    let query = limited(alloc, limit, keys, body)?;
    if with_provenance {
        return Query::provenance(alloc, query);
    }
    Ok(query)
}
