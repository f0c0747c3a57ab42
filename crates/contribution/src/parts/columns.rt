//! Columns as items, and the columns of a query in another order.
ghost use Rattle.std.specs.Prelude.{◌≡◌, [], ◌∷◌, List, IfOk, map, length};
ghost use Rattle.perm_values.specs.Rows.{picked, PlacesWithin};
ghost use Rattle.bag_algebra.specs.Bags.{Row};
ghost use Rattle.bag_algebra.specs.ColumnItems.{column_items};
ghost use Rattle.bag_algebra.specs.Kinds.{kinds_of, kinds_in, width_of, item_kinds};
ghost use Rattle.bag_algebra.specs.Meaning.{Database, meaning, items_on};
ghost use Rattle.bag_algebra.specs.Means.{no_subs};
ghost use Rattle.bag_algebra.specs.Outcome.{Good, mapped};
ghost use Rattle.bag_algebra.specs.built.Patterns.{ProjectOf};
ghost use Rattle.bag_algebra.specs.Rewriting.{is_plain};
ghost use Rattle.bag_algebra.specs.TablesRead.{tables_read};
ghost use Rattle.bag_algebra.specs.WellFormed.{WellFormed, ItemsForm};
ghost use Rattle.bag_algebra.specs.declared.query.Query.{end_of-Sublink};
ghost use Rattle.perm_values.specs.declared.kind.Kind.{Kind};
ghost use Rattle.contribution.specs.ItemKinds.{column_of};

use crate::parts::nodes::projection;
use crate::places::{kind_or_text, kinds};
use bag_algebra::{Expr, Item, Query};
use perm_values::{Kind, List, NoMemory};
use std::alloc::Global;

/// A projection of the query to its columns at those places, in that order, without sublinks of its own; one out of range
/// counts as a text that is NULL. Its rows are the query's with these values, and it is bad exactly where the query is, with
/// the same faults. Where the places are in range it is well formed under all outer kinds under which the query is; it is
/// plain where the query is, and reads the same tables. It fails only for want of memory.
pub fn regroup(alloc: Global, query: Query, order: &[usize]) -> Result<Query, NoMemory>
    ensures made { IfOk result (λ p.
        p ≡ ProjectOf query (column_items (kinds_of query) order.now) [] end_of-Sublink) }
    ensures kinds { IfOk result (λ p. kinds_of p ≡ kinds_in (kinds_of query) order.now) }
    ensures rows { IfOk result (λ p. (db : Database) (env : List Row) →
        meaning p db env ≡ mapped (map (picked order.now)) (meaning query db env)) }
    ensures formed { IfOk result (λ p. PlacesWithin (width_of query) order.now → (outer : List (List Kind)) →
        WellFormed outer query → WellFormed outer p) }
    ensures plain { IfOk result (λ p. is_plain p ≡ is_plain query) }
    ensures tables { IfOk result (λ p. tables_read p ≡ tables_read query) }
{
    let Ok(items) = columns_at(alloc, &query, order) else {
        drop(query);
        return Err(NoMemory);
    };
    projection(alloc, query, items)
}

/// The query's columns at those places; one out of range counts as a text. It fails only for want of memory.
pub fn columns_at(alloc: Global, query: &Query, order: &[usize]) -> Result<List<Item>, NoMemory>
    ensures { IfOk result (λ items. items ≡ column_items (kinds_of query.now) order.now) }
{
    let columns = kinds(alloc, query)?;
    column_items(alloc, columns.as_slice(), order)
}

/// The columns at the places, with their kinds, one out of range counting as a text: their values are those of the row at
/// the places. They are well formed, without sublinks, where the places are in range. It fails only for want of memory.
pub fn column_items(alloc: Global, kinds: &[Kind], order: &[usize]) -> Result<List<Item>, NoMemory>
    ensures made { IfOk result (λ items. items ≡ column_items kinds.now order.now) }
    ensures kinds { IfOk result (λ items. item_kinds items ≡ kinds_in kinds.now order.now) }
    ensures values { IfOk result (λ items. (env : List Row) (u : Row) →
        items_on items env no_subs u ≡ Good (picked order.now u)) }
    ensures formed { IfOk result (λ items. PlacesWithin (length kinds.now) order.now →
        (outer : List (List Kind)) → ItemsForm (kinds.now ∷ outer) [] items) }
{
    let mut items = List::new(alloc);
    for place in order {
        items.push(column(*place, kind_or_text(kinds, *place)))?;
    }
    Ok(items)
}

/// The column of the own row at the place, of this kind. It takes no memory.
pub fn column(place: usize, kind: Kind) -> Item
    ensures { result ≡ column_of kind place }
{
    Item {
        expr: Expr::Col { level: 0, place },
        kind,
    }
}
