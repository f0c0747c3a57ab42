//! Items of a SELECT list.
ghost use Rattle.std.specs.Prelude.{◌≡◌, drop, IfOk};
ghost use Rattle.perm_catalog.specs.Sound.{IsSound};
ghost use Rattle.name_meaning.specs.Items.{first_wanted};
ghost use Rattle.name_meaning.specs.Meanings.{means_at, seen_kind, settled};
ghost use Rattle.name_meaning.specs.Trees.{part_of};
ghost use Rattle.name_seen_parts.specs.Standing.{surroundings};

use crate::asked::queries::wanted_at;
use crate::asked::united::kind_or_any;
use name_meaning::settled;
use name_seen_parts::Here;
use perm_values::{Kind, NoMemory};
use sql_tree::ExprTree;

/// The kind of an expression of the list which gives the column at this place.
pub fn item_kind(
    tree: &ExprTree,
    wanted: &[Kind],
    place: usize,
    here: &Here,
) -> Result<Kind, NoMemory>
    requires { IsSound here.now.catalog.now }
    ensures { IfOk result (λ kind. kind ≡ settled
        (seen_kind (means_at (part_of here.now.catalog.now tree.now) (surroundings here.now)))
        (first_wanted (drop place wanted.now))) }
{
    let kind = kind_or_any(tree, here)?;
    Ok(settled(kind, wanted_at(wanted, place)))
}
