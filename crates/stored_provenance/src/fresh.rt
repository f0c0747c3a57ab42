//! Whether the tables that a stored query read are what they were.
ghost use Rattle.std.specs.Prelude.{◌≡◌, IfOk, not};
ghost use Rattle.std.specs.List.{find};
ghost use Rattle.std.specs.Option.{option_copied};
ghost use Rattle.perm_catalog.specs.Stored.{is_unchanged};
ghost use Rattle.perm_catalog.specs.declared.entries.SourceVersion.{SourceVersion as SeenKept};
ghost use Rattle.stored_provenance.specs.Freshness.{freshness, state_of};

use perm_catalog::{Catalog, SourceVersion};
use perm_values::{Chars, Copyable, NoMemory};
use std::alloc::Global;

/// What has become of the tables that a stored query read.
#[derive(Drop)]
pub enum FreshState {
    /// Each of them is there, with the version that it had.
    Fresh,
    /// The first, in the order in which the query reads them, of which that isn't so, by the name that it
    /// had.
    Stale { first: Chars },
}

/// Whether the table of that name, which stores provenance, is fresh; `None` exactly where no table of that
/// name stores any. It fails only for want of memory.
pub fn freshness(
    alloc: Global,
    catalog: &Catalog,
    name: &Chars,
) -> Result<Option<FreshState>, NoMemory>
    ensures { IfOk result (λ state. state ≡ freshness catalog.now name.now) }
{
    let Some(table) = catalog.table(name) else {
        return Ok(None);
    };
    let Some(stored) = &table.stored else {
        return Ok(None);
    };
    let state = state_of(alloc, first_changed(catalog, stored.kept.as_slice()))?;
    Ok(Some(state))
}

/// The first table that isn't what it was when it was read.
fn first_changed<'k>(catalog: &Catalog, kept: &'k [SourceVersion]) -> Option<&'k SourceVersion>
    ensures { option_copied result
        ≡ find (λ (table : SeenKept). not (is_unchanged catalog.now table)) kept.now }
{
    for table in kept {
        if !is_unchanged(catalog, table) {
            return Some(table);
        }
    }
    None
}

/// Whether a table of the kept identity is there, with the kept version.
fn is_unchanged(catalog: &Catalog, kept: &SourceVersion) -> bool
    ensures { result ≡ is_unchanged catalog.now kept.now }
{
    match catalog.version_of(kept.id) {
        Some(version) => version == kept.version,
        None => false,
    }
}

fn state_of(alloc: Global, changed: Option<&SourceVersion>) -> Result<FreshState, NoMemory>
    ensures { IfOk result (λ state. state ≡ state_of (option_copied changed.entry)) }
{
    match changed {
        Some(kept) => Ok(FreshState::Stale {
            first: kept.table.copy(alloc)?,
        }),
        None => Ok(FreshState::Fresh),
    }
}
