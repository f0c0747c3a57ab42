//! What a subquery of FROM shows.
ghost use Rattle.std.specs.Prelude.{◌≡◌, IfOk};
ghost use Rattle.perm_catalog.specs.Sound.{IsSound};
ghost use Rattle.name_meaning.specs.Froms.{names_of, settled_columns};
ghost use Rattle.name_meaning.specs.Meanings.{query_means_at};
ghost use Rattle.name_meaning.specs.Trees.{query_of};
ghost use Rattle.name_seen_parts.specs.Standing.{around_of};
ghost use Rattle.name_seen_parts.specs.Columns.{columns_of};
ghost use Rattle.name_made_parts.specs.Sources.{Shows};

use crate::shown::{ShownNames, column_names};
use name_seen::query_seen;
use name_seen_cores::QueryShown;
use name_seen_parts::{Around, Refusal};
use perm_values::{List, NoMemory};
use sql_tree::QueryTree;
use std::alloc::Global;

/// The names that a query shows; none, where it breaks.
pub fn shown_names(query: &QueryTree, around: &Around) -> Result<ShownNames, NoMemory>
    requires { IsSound around.now.catalog.now }
    ensures { IfOk result
        (Shows (query_means_at (query_of around.now.catalog.now query.now) (around_of around.now))) }
{
    match query_seen(query, around) {
        Ok(shown) => names_shown(around.alloc, shown),
        Err(Refusal::Break(_)) => Ok(ShownNames {
            names: List::new(around.alloc),
            places: None,
        }),
        Err(Refusal::NoMemory) => Err(NoMemory),
    }
}

fn names_shown(alloc: Global, shown: QueryShown) -> Result<ShownNames, NoMemory>
    ensures { IfOk result (λ found.
        (found.names ≡ names_of (settled_columns (columns_of shown.columns)))
        × (found.places ≡ shown.places)) }
{
    let names = column_names(alloc, shown.columns.as_slice())?;
    let QueryShown { places, .. } = shown;
    Ok(ShownNames { names, places })
}
