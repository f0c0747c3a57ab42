//! What queries show.
ghost use Rattle.perm_catalog.specs.Sound.{IsSound};
ghost use Rattle.name_meaning.specs.Meanings.{query_means_at};
ghost use Rattle.name_meaning.specs.Trees.{query_of};
ghost use Rattle.name_seen_parts.specs.Standing.{around_of};
ghost use Rattle.name_seen_cores.specs.from.Queried.{QuerySeen};

use crate::sets::set_seen;
use name_seen_cores::{Facts, QueryShown, asks_provenance, query_over};
use name_seen_parts::{Around, Refusal};
use sql_tree::QueryTree;

/// What a query shows, or its first break.
#[cycle(seen)]
pub fn query_seen(tree: &QueryTree, around: &Around) -> Result<QueryShown, Refusal>
    requires { IsSound around.now.catalog.now }
    ensures { QuerySeen (query_means_at (query_of around.now.catalog.now tree.now) (around_of around.now))
        result }
{
    let asking = asks_provenance(&tree.body, around);
    let mut facts = Facts::none(around.alloc);
    let columns = set_seen(&tree.body, around, &mut facts)?;
    query_over(around.alloc, tree.order.as_slice(), asking, columns, facts)
}
