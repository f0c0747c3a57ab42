//! What stands around the parts of a query, and at which kinds they are made.
ghost use Rattle.std.specs.Prelude.{◌≡◌, [], slice_index_or, IfOk, Some};
ghost use Rattle.perm_values.specs.declared.kind.Kind.TheVariants.{Text};
ghost use Rattle.bag_algebra.specs.declared.query.Query.{Query};
ghost use Rattle.perm_catalog.specs.Sound.{IsSound};
ghost use Rattle.name_meaning.specs.Cores.{settle};
ghost use Rattle.name_meaning.specs.Meanings.{settled};
ghost use Rattle.name_meaning.specs.Queries.{keys_of, limited};
ghost use Rattle.name_meaning.specs.Trees.{set_of_tree};
ghost use Rattle.name_seen_parts.specs.Standing.{around_of};
ghost use Rattle.name_seen_parts.specs.Columns.{columns_of};
ghost use Rattle.name_made_parts.specs.AskedColumns.{Settles};

use crate::keys::keys_of;
use name_meaning::settled;
use name_seen::set_seen;
use name_seen_cores::Facts;
use name_seen_parts::{Around, Refusal, ShownColumn};
use perm_values::{Key, Kind, List, NoMemory};
use sql_tree::{QueryTree, SetTree};
use std::alloc::Global;

/// The columns of a tree of set operations; none, where it breaks.
fn columns_or_none(tree: &SetTree, around: &Around) -> Result<List<ShownColumn>, NoMemory>
    requires { IsSound around.now.catalog.now }
    ensures { IfOk result (λ columns.
        ((set_of_tree around.now.catalog.now tree.now).means (around_of around.now)).breaks ≡ []
        → ((set_of_tree around.now.catalog.now tree.now).means (around_of around.now)).columns
        ≡ Some (columns_of columns)) }
{
    let mut facts = Facts::none(around.alloc);
    match set_seen(tree, around, &mut facts) {
        Ok(columns) => Ok(columns),
        Err(Refusal::Break(_)) => Ok(List::new(around.alloc)),
        Err(Refusal::NoMemory) => Err(NoMemory),
    }
}

/// The keys by which the query is cut, if it has a limit.
pub fn limit_keys(tree: &QueryTree, around: &Around) -> Result<List<Key>, NoMemory>
    requires { IsSound around.now.catalog.now }
    ensures { IfOk result (λ keys. (query : Query) →
        ((set_of_tree around.now.catalog.now tree.now.body).means (around_of around.now)).breaks ≡ []
        → limited tree.now.limit keys query ≡ limited tree.now.limit
        (keys_of ((set_of_tree around.now.catalog.now tree.now.body).means (around_of around.now)).columns
        tree.now.order) query) }
{
    if tree.limit.is_none() {
        return Ok(List::new(around.alloc));
    }
    let columns = columns_or_none(&tree.body, around)?;
    keys_of(around.alloc, columns.as_slice(), tree.order.as_slice())
}

/// The kinds at which the operands of a chain are made.
pub fn chain_kinds(tree: &SetTree, wanted: &[Kind], around: &Around) -> Result<List<Kind>, NoMemory>
    requires { IsSound around.now.catalog.now }
    ensures { IfOk result (λ kinds.
        ((set_of_tree around.now.catalog.now tree.now).means (around_of around.now)).breaks ≡ []
        → Settles ((set_of_tree around.now.catalog.now tree.now).means (around_of around.now))
        wanted.now kinds) }
{
    let columns = columns_or_none(tree, around)?;
    settled_kinds(around.alloc, columns.as_slice(), wanted)
}

/// The kinds of the columns, where those of any take the one that is wanted of them.
fn settled_kinds(
    alloc: Global,
    columns: &[ShownColumn],
    wanted: &[Kind],
) -> Result<List<Kind>, NoMemory>
    ensures { IfOk result (λ kinds. kinds ≡ settle (columns_of columns.now) wanted.now) }
{
    let mut kinds = List::new(alloc);
    for place in 0..columns.len() {
        kinds.push(settled_kind(&columns[place], wanted, place))?;
    }
    Ok(kinds)
}

fn settled_kind(column: &ShownColumn, wanted: &[Kind], place: usize) -> Kind
    ensures { result ≡ settled column.now.kind (slice_index_or wanted.now place Text) }
{
    settled(column.kind, wanted_at(wanted, place))
}

/// The kind that is wanted of the column at a place; Text where none is.
pub(crate) fn wanted_at(wanted: &[Kind], place: usize) -> Kind
    ensures { result ≡ slice_index_or wanted.now place Text }
{
    if place < wanted.len() {
        return wanted[place];
    }
    Kind::Text
}
