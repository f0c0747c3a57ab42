//! What queries show over their bodies.
ghost use Rattle.std.specs.Prelude.{◌≡◌, [], ℕ, ℤ, Option};
ghost use Rattle.name_meaning.specs.Meanings.{QueryMeant};
ghost use Rattle.name_meaning.specs.Queries.{asks_provenance};
ghost use Rattle.name_meaning.specs.Trees.{set_of_tree};
ghost use Rattle.name_meaning.specs.laws.Known.{HasItsKinds};
ghost use Rattle.name_seen_parts.specs.Standing.{around_of};
ghost use Rattle.perm_catalog.specs.Contents.{Contents};
ghost use Rattle.name_seen_cores.specs.from.Added.{facts_in};
ghost use Rattle.name_seen_cores.specs.from.Queried.{ColumnsWhole, QuerySeen};
ghost use Rattle.name_seen_cores.specs.declared.from.facts.Facts.{Facts as Gathered};
ghost use Rattle.name_meaning.specs.laws.Facts.{no_facts};
ghost use Rattle.name_seen_cores.specs.Behind.{query_behind};

use crate::from::{Facts, QueryShown};
use crate::places::with_places;
use name_seen_parts::{Around, Refusal, ShownColumn, keys_break};
use perm_values::List;
use sql_tree::{OrderTree, SetTree};
use std::alloc::Global;

/// The offset of the word PROVENANCE behind the first SELECT of the tree, where it stands there.
pub fn core_word(tree: &SetTree) -> Option<usize>
    ensures { (c : Contents) → result ≡ (set_of_tree c tree.now).word }
{
    match tree {
        SetTree::Core(core) => core.get().provenance,
        SetTree::Paren(_) => None,
        SetTree::Chain { first, .. } => core_word(first.get()),
    }
}

/// Whether a query with this body asks for its provenance.
pub fn asks_provenance(tree: &SetTree, around: &Around) -> bool
    ensures { (c : Contents) → result ≡ asks_provenance (around_of around.now) (set_of_tree c tree.now) }
{
    around.may_ask && core_word(tree).is_some()
}

/// What a query shows over a body with these columns and facts, or the first break of its keys.
pub fn query_over(
    alloc: Global,
    order: &[OrderTree],
    asking: bool,
    columns: List<ShownColumn>,
    facts: Facts,
) -> Result<QueryShown, Refusal>
    ensures { (at : ℕ) (body : QueryMeant) (limit : Option ℤ) (none : Gathered) → facts_in none ≡ no_facts
        → ColumnsWhole body none facts columns
        → ((query_behind asking at body order.now limit).breaks ≡ []
        → HasItsKinds (query_behind asking at body order.now limit))
        → QuerySeen (query_behind asking at body order.now limit) result }
{
    keys_break(columns.as_slice(), order)?;
    if !asking {
        return Ok(QueryShown {
            columns,
            places: None,
            facts,
        });
    }
    Ok(with_places(alloc, columns, facts)?)
}
