//! The query of one row of NULLs.
ghost use Rattle.std.specs.Prelude.{◌≡◌, [], ◌∷◌, List, IfOk, IsTrue, map, length};
ghost use Rattle.bag_algebra.specs.Bags.{Row, nulls};
ghost use Rattle.bag_algebra.specs.Kinds.{kinds_of, shape};
ghost use Rattle.bag_algebra.specs.Meaning.{Database, meaning};
ghost use Rattle.bag_algebra.specs.Outcome.{Good};
ghost use Rattle.bag_algebra.specs.Rewriting.{is_plain};
ghost use Rattle.bag_algebra.specs.WellFormed.{WellFormed};
ghost use Rattle.contribution.specs.NullRow.{null_row_of};
ghost use Rattle.perm_values.specs.declared.kind.Kind.{Kind};

use crate::parts::{null_items, projection};
use bag_algebra::Query;
use perm_values::{Kind, NoMemory};
use std::alloc::Global;

/// A query of these kinds that is never bad and has exactly one row, of NULLs: a projection of the empty row, without
/// tables, sublinks and places. It is plain, and well formed under all outer kinds, so it is closed. It fails only for
/// want of memory.
pub fn null_row(alloc: Global, kinds: &[Kind]) -> Result<Query, NoMemory>
    ensures made { IfOk result (λ q. q ≡ null_row_of kinds.now) }
    ensures kinds { IfOk result (λ q. kinds_of q ≡ kinds.now) }
    ensures rows { IfOk result (λ q. (db : Database) (env : List Row) →
        meaning q db env ≡ Good (nulls (length kinds.now) ∷ [])) }
    ensures formed { IfOk result (λ q. (outer : List (List Kind)) → WellFormed outer q) }
    ensures plain { IfOk result (λ q. IsTrue (is_plain q)) }
{
    let items = null_items(alloc, kinds)?;
    projection(alloc, Query::Single, items)
}
