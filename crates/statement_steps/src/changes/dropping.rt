ghost use Rattle.std.specs.Prelude.{◌≡◌, None, IsSome};
ghost use Rattle.perm_catalog.specs.Changes.{table_named, view_named};
ghost use Rattle.perm_catalog.specs.Lookups.{first_user};
ghost use Rattle.statement_meaning.specs.Answers.{IsTurn};
ghost use Rattle.statement_meaning.specs.Turns.{table_dropped, view_dropped};

use crate::changes::text::text_of;
use perm_catalog::Catalog;
use perm_values::{Bytes, Chars};
use statement_meaning::StepRefusal;
use std::alloc::Global;

/// DROP TABLE, of a table that is known and that no view names.
pub fn drop_table(alloc: Global, catalog: &mut Catalog, name: &Chars) -> Result<Bytes, StepRefusal>
    requires held { IsSome (table_named catalog.old name.now) }
    requires unused { first_user catalog.old name.now ≡ None }
    ensures { IsTurn (table_dropped catalog.old name.now) catalog.old catalog.new result }
{
    let text = text_of(alloc, b"DROP TABLE\n")?;
    catalog.drop_table(name);
    Ok(text)
}

/// DROP VIEW, of a view that is known and that no view names.
pub fn drop_view(alloc: Global, catalog: &mut Catalog, name: &Chars) -> Result<Bytes, StepRefusal>
    requires held { IsSome (view_named catalog.old name.now) }
    requires unused { first_user catalog.old name.now ≡ None }
    ensures { IsTurn (view_dropped catalog.old name.now) catalog.old catalog.new result }
{
    let text = text_of(alloc, b"DROP VIEW\n")?;
    catalog.drop_view(name);
    Ok(text)
}
