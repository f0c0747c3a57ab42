//! What is kept of the tables that a query reads.
#![tactic(auto, using(bag_algebra::proofs::Smaller::smaller))]

ghost use Rattle.std.specs.Prelude.{◌≡◌, IfOk, OnOk};
ghost use Rattle.std.specs.List.{list_any};
ghost use Rattle.bag_algebra.specs.Inputs.{given};
ghost use Rattle.bag_algebra.specs.TablesRead.{tables_read};
ghost use Rattle.perm_catalog.specs.Stored.{kept_of};
ghost use Rattle.stored_provenance.specs.Reads.{has_id, kept_now, with_read, with_reads, inputs_read, sublinks_read};

use bag_algebra::{Inputs, Query, Sublink};
use perm_catalog::{Catalog, SourceVersion};
use perm_values::{Copyable, List, NoMemory};
use std::alloc::Global;

/// The tables that the query reads, each once, in the order in which it reads them first, as they stand now.
/// It fails only for want of memory.
pub(crate) fn kept_of(
    alloc: Global,
    catalog: &Catalog,
    query: &Query,
) -> Result<List<SourceVersion>, NoMemory>
    ensures { IfOk result (λ kept. kept ≡ kept_of catalog.now query.now) }
{
    let mut kept = List::new(alloc);
    keep_reads(alloc, catalog, query, &mut kept)?;
    Ok(kept)
}

/// Keeps each table that the query reads and that isn't kept.
#[cycle(keep_reads)]
fn keep_reads(
    alloc: Global,
    catalog: &Catalog,
    query: &Query,
    kept: &mut List<SourceVersion>,
) -> Result<(), NoMemory>
    ensures { OnOk result (kept.new ≡ with_reads catalog.now (tables_read query.now) kept.old) }
{
    if let Query::Table { id, .. } = query {
        return keep_read(alloc, catalog, *id, kept);
    }
    keep_inputs(alloc, catalog, query.inputs(), kept)?;
    keep_sublinks(alloc, catalog, query.sublinks(), kept)
}

#[cycle(keep_reads)]
fn keep_inputs(
    alloc: Global,
    catalog: &Catalog,
    inputs: Inputs<'_>,
    kept: &mut List<SourceVersion>,
) -> Result<(), NoMemory>
    ensures { OnOk result (kept.new ≡ with_reads catalog.now (inputs_read (given inputs.entry)) kept.old) }
{
    match inputs {
        Inputs::Zero => Ok(()),
        Inputs::One(input) => keep_reads(alloc, catalog, input, kept),
        Inputs::Two(left, right) => {
            keep_reads(alloc, catalog, left, kept)?;
            keep_reads(alloc, catalog, right, kept)
        }
    }
}

#[cycle(keep_reads)]
fn keep_sublinks(
    alloc: Global,
    catalog: &Catalog,
    subs: &[Sublink],
    kept: &mut List<SourceVersion>,
) -> Result<(), NoMemory>
    ensures { OnOk result (kept.new ≡ with_reads catalog.now (sublinks_read subs.now) kept.old) }
{
    for sub in subs {
        keep_reads(alloc, catalog, &sub.query, kept)?;
    }
    Ok(())
}

/// Keeps the table of this identity, if there is one that isn't kept.
fn keep_read(
    alloc: Global,
    catalog: &Catalog,
    id: u64,
    kept: &mut List<SourceVersion>,
) -> Result<(), NoMemory>
    ensures { OnOk result (kept.new ≡ with_read catalog.now id kept.old) }
{
    if has_id(kept.as_slice(), id) {
        return Ok(());
    }
    if let Some(table) = kept_now(alloc, catalog, id)? {
        kept.push(table)?;
    }
    Ok(())
}

fn has_id(kept: &[SourceVersion], id: u64) -> bool
    ensures { result ≡ has_id id kept.now }
{
    kept.iter().any(|table| table.id == id)
}

/// The table of this identity as it stands now, if there is one.
fn kept_now(alloc: Global, catalog: &Catalog, id: u64) -> Result<Option<SourceVersion>, NoMemory>
    ensures { IfOk result (λ kept. kept ≡ kept_now catalog.now id) }
{
    let (Some(name), Some(version)) = (catalog.name_of(id), catalog.version_of(id)) else {
        return Ok(None);
    };
    Ok(Some(SourceVersion {
        table: name.copy(alloc)?,
        id,
        version,
    }))
}
