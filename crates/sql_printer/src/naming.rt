//! What the tables that a query reads are called.
#![tactic(auto, using(bag_algebra::proofs::Smaller::smaller))]

ghost use Rattle.std.specs.Prelude.{◌≡◌, IfOk, OnOk};
ghost use Rattle.std.specs.List.{list_any};
ghost use Rattle.bag_algebra.specs.Inputs.{given};
ghost use Rattle.bag_algebra.specs.TablesRead.{tables_read};
ghost use Rattle.perm_catalog.specs.Columns.{column_names};
ghost use Rattle.query_texts.specs.clauses.Names.{has_id};
ghost use Rattle.stored_provenance.specs.Reads.{inputs_read, sublinks_read};
ghost use Rattle.sql_printer.specs.Called.{named_under, names_now, tables_named, with_read, with_reads};

use bag_algebra::{Inputs, Query, Sublink};
use perm_catalog::{Catalog, Column, TableEntry};
use perm_values::{Chars, Copyable, List, NoMemory};
use query_texts::TableNames;
use std::alloc::Global;

/// The names of the tables that the query reads, and of their columns, each table once. It fails only for want of memory.
pub fn tables_named(
    alloc: Global,
    catalog: &Catalog,
    query: &Query,
) -> Result<List<TableNames>, NoMemory>
    ensures { IfOk result (λ tables. tables ≡ tables_named catalog.now query.now) }
{
    let mut tables = List::new(alloc);
    add_reads(alloc, catalog, query, &mut tables)?;
    Ok(tables)
}

/// Adds each table that the query reads and that isn't there.
#[cycle(add_reads)]
fn add_reads(
    alloc: Global,
    catalog: &Catalog,
    query: &Query,
    tables: &mut List<TableNames>,
) -> Result<(), NoMemory>
    ensures { OnOk result (tables.new ≡ with_reads catalog.now (tables_read query.now) tables.old) }
{
    if let Query::Table { id, .. } = query {
        return add_read(alloc, catalog, *id, tables);
    }
    add_inputs(alloc, catalog, query.inputs(), tables)?;
    add_sublinks(alloc, catalog, query.sublinks(), tables)
}

#[cycle(add_reads)]
fn add_inputs(
    alloc: Global,
    catalog: &Catalog,
    inputs: Inputs<'_>,
    tables: &mut List<TableNames>,
) -> Result<(), NoMemory>
    ensures { OnOk result (tables.new
        ≡ with_reads catalog.now (inputs_read (given inputs.entry)) tables.old) }
{
    match inputs {
        Inputs::Zero => Ok(()),
        Inputs::One(input) => add_reads(alloc, catalog, input, tables),
        Inputs::Two(left, right) => {
            add_reads(alloc, catalog, left, tables)?;
            add_reads(alloc, catalog, right, tables)
        }
    }
}

#[cycle(add_reads)]
fn add_sublinks(
    alloc: Global,
    catalog: &Catalog,
    subs: &[Sublink],
    tables: &mut List<TableNames>,
) -> Result<(), NoMemory>
    ensures { OnOk result (tables.new ≡ with_reads catalog.now (sublinks_read subs.now) tables.old) }
{
    for sub in subs {
        add_reads(alloc, catalog, &sub.query, tables)?;
    }
    Ok(())
}

/// Adds the table of an identity, if there is one that isn't there yet.
fn add_read(
    alloc: Global,
    catalog: &Catalog,
    id: u64,
    tables: &mut List<TableNames>,
) -> Result<(), NoMemory>
    ensures { OnOk result (tables.new ≡ with_read catalog.now id tables.old) }
{
    if is_named(tables.as_slice(), id) {
        return Ok(());
    }
    if let Some(table) = names_now(alloc, catalog, id)? {
        tables.push(table)?;
    }
    Ok(())
}

fn is_named(tables: &[TableNames], id: u64) -> bool
    ensures { result ≡ list_any (has_id id) tables.now }
{
    tables.iter().any(|table| table.id == id)
}

/// What the table of an identity is called, if there is one.
fn names_now(alloc: Global, catalog: &Catalog, id: u64) -> Result<Option<TableNames>, NoMemory>
    ensures { IfOk result (λ names. names ≡ names_now catalog.now id) }
{
    let Some(name) = catalog.name_of(id) else {
        return Ok(None);
    };
    let Some(table) = catalog.table(name) else {
        return Ok(None);
    };
    let names = named_under(alloc, id, name, table)?;
    Ok(Some(names))
}

fn named_under(
    alloc: Global,
    id: u64,
    name: &Chars,
    table: &TableEntry,
) -> Result<TableNames, NoMemory>
    ensures { IfOk result (λ names. names ≡ named_under id name.now table.now) }
{
    let name = name.copy(alloc)?;
    let columns = column_names(alloc, table.columns.as_slice())?;
    Ok(TableNames { id, name, columns })
}

fn column_names(alloc: Global, columns: &[Column]) -> Result<List<Chars>, NoMemory>
    ensures { IfOk result (λ names. names ≡ column_names columns.now) }
{
    let mut names = List::new(alloc);
    for column in columns {
        names.push(column.name.copy(alloc)?)?;
    }
    Ok(names)
}
