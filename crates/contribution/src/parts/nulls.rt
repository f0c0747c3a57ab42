//! NULLs as items.
ghost use Rattle.std.specs.Prelude.{◌≡◌, [], List, IfOk, map, length};
ghost use Rattle.bag_algebra.specs.Bags.{Row, nulls};
ghost use Rattle.bag_algebra.specs.Kinds.{item_kinds};
ghost use Rattle.bag_algebra.specs.Meaning.{items_on};
ghost use Rattle.bag_algebra.specs.Means.{no_subs};
ghost use Rattle.bag_algebra.specs.Outcome.{Good};
ghost use Rattle.bag_algebra.specs.WellFormed.{ItemsForm};
ghost use Rattle.perm_values.specs.declared.kind.Kind.{Kind};
ghost use Rattle.contribution.specs.NullItems.{null_item};

use bag_algebra::{Expr, Item};
use perm_values::{Kind, List, NoMemory, Value};
use std::alloc::Global;

/// A NULL of each of the kinds. The items are well formed, without sublinks, in all scopes. It fails only for want of
/// memory.
pub fn null_items(alloc: Global, kinds: &[Kind]) -> Result<List<Item>, NoMemory>
    ensures made { IfOk result (λ items. items ≡ map null_item kinds.now) }
    ensures kinds { IfOk result (λ items. item_kinds items ≡ kinds.now) }
    ensures values { IfOk result (λ items. (env : List Row) (u : Row) →
        items_on items env no_subs u ≡ Good (nulls (length kinds.now))) }
    ensures formed { IfOk result (λ items. (scopes : List (List Kind)) → ItemsForm scopes [] items) }
{
    let mut items = List::new(alloc);
    for kind in kinds {
        items.push(null_item(*kind))?;
    }
    Ok(items)
}

fn null_item(kind: Kind) -> Item
    ensures { result ≡ null_item kind }
{
    let expr = Expr::Lit {
        value: Value::Null,
        kind,
    };
    Item { expr, kind }
}
