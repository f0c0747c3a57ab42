//! Queries and set operations, made at the kinds that are wanted of their columns.
ghost use Rattle.std.specs.Prelude.{◌≡◌, IfOk, map};
ghost use Rattle.perm_catalog.specs.Sound.{IsSound};
ghost use Rattle.name_meaning.specs.Meanings.{QueryMeant, query_means_at};
ghost use Rattle.name_meaning.specs.Queries.{set_chain};
ghost use Rattle.name_meaning.specs.Trees.{query_of, set_of_tree, set_step_of};
ghost use Rattle.name_meaning.specs.nodes.Chained.{Serves};
ghost use Rattle.name_meaning.specs.nodes.Makes.{MakesQuery};
ghost use Rattle.name_seen_parts.specs.Standing.{around_of};

use crate::cores::core_made;
use bag_algebra::Query;
use name_made_parts::{chain_kinds, limit_keys};
use name_meaning::{finished_of, with_operand};
use name_seen_cores::asks_provenance;
use name_seen_parts::Around;
use perm_values::{Kind, NoMemory};
use sql_tree::{QueryTree, SetStep, SetTree};

/// The query where it stands, with its columns of any kind at the kinds that are wanted of them. It fails only for want of
/// memory.
#[cycle(made)]
pub fn query_made(tree: &QueryTree, wanted: &[Kind], around: &Around) -> Result<Query, NoMemory>
    requires { IsSound around.now.catalog.now }
    ensures { IfOk result (λ query. MakesQuery
        (query_means_at (query_of around.now.catalog.now tree.now) (around_of around.now)) wanted.now query) }
{
    let with_provenance = asks_provenance(&tree.body, around);
    let keys = limit_keys(tree, around)?;
    let body = set_made(&tree.body, wanted, around);
    finished_of(around.alloc, body, keys, tree.limit, with_provenance)
}

/// The tree of set operations where it stands.
#[cycle(made)]
fn set_made(tree: &SetTree, wanted: &[Kind], around: &Around) -> Result<Query, NoMemory>
    requires { IsSound around.now.catalog.now }
    ensures { IfOk result (λ query. MakesQuery
        ((set_of_tree around.now.catalog.now tree.now).means (around_of around.now)) wanted.now query) }
{
    match tree {
        SetTree::Core(core) => core_made(core.get(), wanted, around),
        SetTree::Paren(query) => {
            let inner = Around {
                alloc: around.alloc,
                catalog: &*around.catalog,
                outer: &*around.outer,
                may_ask: false,
            };
            query_made(query.get(), wanted, &inner)
        }
        SetTree::Chain { first, steps } => {
            let before = first.get();
            if steps.is_empty() {
                return set_made(before, wanted, around);
            }
            let kinds = chain_kinds(tree, wanted, around)?;
            let Ok(first) = set_made(before, kinds.as_slice(), around) else {
                drop(kinds);
                return Err(NoMemory);
            };
            let whole = chained(steps.as_slice(), first, kinds.as_slice(), around);
            drop(kinds);
            whole
        }
    }
}

/// Set operations on what stands before them, their operands made at the kinds of the whole.
#[cycle(made)]
fn chained(
    steps: &[SetStep],
    first: Query,
    kinds: &[Kind],
    around: &Around,
) -> Result<Query, NoMemory>
    requires { IsSound around.now.catalog.now }
    ensures { IfOk result (λ query. (meant : QueryMeant) → MakesQuery meant kinds.now first
        → Serves (set_chain (around_of around.now) meant
        (map (set_step_of around.now.catalog.now) steps.now)) kinds.now
        → query ≡ (set_chain (around_of around.now) meant
        (map (set_step_of around.now.catalog.now) steps.now)).make kinds.now) }
{
    let inner = Around {
        alloc: around.alloc,
        catalog: &*around.catalog,
        outer: &*around.outer,
        may_ask: false,
    };
    let mut whole = first;
    for step in steps {
        let operand = set_made(&step.operand, kinds, &inner);
        whole = with_operand(around.alloc, step.word, step.all, whole, operand)?;
    }
    Ok(whole)
}
