//! The query of IMPACT: that it is monotone, and the whole query within the limits.
ghost use Rattle.std.specs.Prelude.{◌≡◌, [], IfErr, IfOk, IsErrAnd, Ok, map, not, true};
ghost use Rattle.query_facts.specs.monotone.Monotone as queries;
ghost use Rattle.name_seen_parts.specs.Columns.{columns_of};
ghost use Rattle.name_seen_parts.specs.Seen.{first_or};
ghost use Rattle.name_seen_parts.specs.Standing.{around_of};
ghost use Rattle.name_meaning.specs.nodes.Makes.{MakesQuery};
ghost use Rattle.name_meaning.specs.Meanings.{QueryMeant, broken_if, query_means_at};
ghost use Rattle.name_meaning.specs.Queries.{key_of};
ghost use Rattle.name_meaning.specs.Trees.{query_of};
ghost use Rattle.name_meaning.specs.declared.rule.Rule.TheVariants as rule;
ghost use Rattle.name_seen_parts.specs.declared.refusal.Refusal.TheVariants.{Break as Broken};
ghost use Rattle.name_seen_cores.specs.from.Queried.{QueryWhole};
ghost use Rattle.name_statements.specs.Resolves.{AskedSeen, InsideSeen, IsMonotoneMade, MonotoneSeen};

use crate::queries::Whole;
use crate::whole_queries::whole_with;
use bag_algebra::Query;
use name_inside::Gathered;
use name_meaning::{Break, Rule};
use name_seen_cores::QueryShown;
use name_seen_parts::{Around, Refusal};
use perm_values::{Key, List, NoMemory};
use query_facts::{is_monotone_along, let_go_along};
use sql_tree::QueryTree;

/// A query as it was made, whose tree stands at this offset, or that it isn't monotone.
pub fn monotone_made(at: usize, made: Result<Query, NoMemory>) -> Result<Query, Refusal>
    ensures { (m : QueryMeant) → m.breaks ≡ [] → IfOk made (MakesQuery m []) → MonotoneSeen at m result }
{
    let query = made?;
    let monotone = monotone_break(at, &query);
    query_within(query, monotone)
}

/// A query that keeps within a limit, or the break of the limit. It may be as high as a script is long, so it is let go by a loop.
fn query_within(query: Query, limit: Result<(), Break>) -> Result<Query, Refusal>
    ensures kept { IfOk result (λ same. (same ≡ query) × (limit ≡ Ok tt)) }
    ensures broken { IfErr result (λ refusal. IsErrAnd limit (λ first. refusal ≡ Broken first)) }
{
    match limit {
        Ok(()) => Ok(query),
        Err(first) => {
            let_go_along(query);
            Err(Refusal::Break(first))
        }
    }
}

/// That the query, whose tree stands at this offset, isn't monotone.
fn monotone_break(at: usize, query: &Query) -> Result<(), Break>
    ensures { result ≡ first_or (broken_if (not (queries.is_monotone query.now)) rule.NotMonotone at) tt }
{
    if is_monotone_along(query) {
        return Ok(());
    }
    Err(Break {
        rule: Rule::NotMonotone,
        at,
    })
}

/// A query that was seen to break nothing and is monotone, whole, of what was found inside it and of what was made; or the first
/// limit that it passes.
pub fn monotone_with(
    query: &QueryTree,
    around: &Around,
    shown: QueryShown,
    keys: Result<List<Key>, NoMemory>,
    made: Query,
    gathered: Result<Gathered, Refusal>,
) -> Result<Whole, Refusal>
    requires seen { QueryWhole
        (query_means_at (query_of around.now.catalog.now query.now) (around_of around.now)) shown }
    requires made { IsMonotoneMade
        (query_means_at (query_of around.now.catalog.now query.now) (around_of around.now)) made }
    requires inside { InsideSeen query.now.at
        (query_means_at (query_of around.now.catalog.now query.now) (around_of around.now)) gathered }
    ensures { IfOk keys (λ keys. keys ≡ map (key_of (columns_of shown.columns)) query.now.order)
        → AskedSeen query.now.at
        (query_means_at (query_of around.now.catalog.now query.now) (around_of around.now)) result }
{
    match gathered {
        Ok(gathered) => whole_with(query, around, shown, keys, Ok(made), gathered),
        Err(refusal) => {
            drop(shown);
            drop(keys);
            let_go_along(made);
            Err(refusal)
        }
    }
}
