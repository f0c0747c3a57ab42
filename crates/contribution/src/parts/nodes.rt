//! Projections, filters and joins without sublinks.
ghost use Rattle.std.specs.Prelude.{◌≡◌, ◌&&◌, ◌++◌, [], ◌∷◌, List, IfOk};
ghost use Rattle.bag_algebra.specs.Bags.{Row};
ghost use Rattle.bag_algebra.specs.Kinds.{kinds_of, width_of, item_kinds};
ghost use Rattle.bag_algebra.specs.Meaning.{Database, meaning, condition_on, items_on};
ghost use Rattle.bag_algebra.specs.Means.{no_subs, kept, joined_rows};
ghost use Rattle.bag_algebra.specs.Outcome.{and_then, both_then, each, gather};
ghost use Rattle.bag_algebra.specs.built.Patterns.{FilterOf, JoinOf, ProjectOf};
ghost use Rattle.bag_algebra.specs.Rewriting.{is_plain};
ghost use Rattle.bag_algebra.specs.TablesRead.{tables_read};
ghost use Rattle.bag_algebra.specs.WellFormed.{WellFormed, HasKind, ItemsForm};
ghost use Rattle.bag_algebra.specs.declared.query.JoinKind.TheVariants.{Inner, Left};
ghost use Rattle.bag_algebra.specs.declared.query.Query.{end_of-Sublink};
ghost use Rattle.bag_algebra.specs.declared.query.Query.TheVariants.{Table};
ghost use Rattle.perm_values.specs.declared.kind.Kind.{Kind};
ghost use Rattle.perm_values.specs.declared.kind.Kind.TheVariants.{Boolean};

use bag_algebra::{Expr, Item, JoinKind, Query, Sublink};
use perm_values::{Copyable, Kind, List, NoMemory};
use std::alloc::Global;

/// A projection of the query to the items, without sublinks. It is well formed where the query and the items are, plain
/// where the query is, and reads the same tables. It fails only for want of memory.
pub fn projection(alloc: Global, query: Query, items: List<Item>) -> Result<Query, NoMemory>
    ensures made { IfOk result (λ p. p ≡ ProjectOf query items [] end_of-Sublink) }
    ensures kinds { IfOk result (λ p. kinds_of p ≡ item_kinds items) }
    ensures rows { IfOk result (λ p. (db : Database) (env : List Row) →
        meaning p db env ≡ and_then (meaning query db env) (each (items_on items env no_subs))) }
    ensures formed { IfOk result (λ p. (outer : List (List Kind)) →
        WellFormed outer query → ItemsForm (kinds_of query ∷ outer) [] items → WellFormed outer p) }
    ensures plain { IfOk result (λ p. is_plain p ≡ is_plain query) }
    ensures tables { IfOk result (λ p. tables_read p ≡ tables_read query) }
{
    Query::project(alloc, query, items, List::new(alloc))
}

/// The rows of the query on which the condition is true, without sublinks. It is well formed where the query and the
/// condition are, plain where the query is, and reads the same tables. It fails only for want of memory.
pub fn selection(alloc: Global, query: Query, condition: Expr) -> Result<Query, NoMemory>
    ensures made { IfOk result (λ p. p ≡ FilterOf query condition [] end_of-Sublink) }
    ensures kinds { IfOk result (λ p. kinds_of p ≡ kinds_of query) }
    ensures rows { IfOk result (λ p. (db : Database) (env : List Row) →
        meaning p db env ≡ and_then (meaning query db env)
        (gather (kept (condition_on condition env no_subs)))) }
    ensures formed { IfOk result (λ p. (outer : List (List Kind)) →
        WellFormed outer query → HasKind (kinds_of query ∷ outer) [] condition Boolean → WellFormed outer p) }
    ensures plain { IfOk result (λ p. is_plain p ≡ is_plain query) }
    ensures tables { IfOk result (λ p. tables_read p ≡ tables_read query) }
{
    Query::filter(alloc, query, condition, List::new(alloc))
}

/// The join of the queries on the condition, without sublinks. It is well formed where the queries and the condition are,
/// plain where both queries are, and reads the tables of both. It fails only for want of memory.
pub fn join_on(
    alloc: Global,
    kind: JoinKind,
    left: Query,
    right: Query,
    condition: Expr,
) -> Result<Query, NoMemory>
    ensures made { IfOk result (λ p. p ≡ JoinOf kind left right condition [] end_of-Sublink) }
    ensures kinds { IfOk result (λ p. kinds_of p ≡ kinds_of left ++ kinds_of right) }
    ensures rows { IfOk result (λ p. (db : Database) (env : List Row) →
        meaning p db env ≡ both_then (meaning left db env) (meaning right db env)
        (joined_rows kind (condition_on condition env no_subs) (width_of left) (width_of right))) }
    ensures formed { IfOk result (λ p. (outer : List (List Kind)) → WellFormed outer left →
        WellFormed outer right →
        HasKind ((kinds_of left ++ kinds_of right) ∷ outer) [] condition Boolean → WellFormed outer p) }
    ensures plain { IfOk result (λ p. is_plain p ≡ (is_plain left && is_plain right)) }
    ensures tables { IfOk result (λ p. tables_read p ≡ tables_read left ++ tables_read right) }
{
    Query::join(alloc, kind, left, right, condition, List::new(alloc))
}

/// The kind of a join that keeps left rows without partner, beside NULLs.
pub fn outwards() -> JoinKind
    ensures { result ≡ Left }
{
    JoinKind::Left
}

/// The kind of a join that keeps no row without partner.
pub fn inwards() -> JoinKind
    ensures { result ≡ Inner }
{
    JoinKind::Inner
}

/// The table of this identity. It fails only for want of memory.
pub fn table(alloc: Global, id: u64, kinds: &List<Kind>) -> Result<Query, NoMemory>
    ensures { IfOk result (λ p. p ≡ Table id kinds.now) }
{
    let kinds = kinds.copy(alloc)?;
    Ok(Query::Table { id, kinds })
}

/// The sublink over that query. It fails only for want of memory.
pub fn sublink_over(alloc: Global, sub: &Sublink, query: Query) -> Result<Sublink, NoMemory>
    ensures kind_kept { IfOk result (λ other. other.kind ≡ sub.now.kind) }
    ensures tested_kept { IfOk result (λ other. other.tested ≡ sub.now.tested) }
    ensures over { IfOk result (λ other. other.query ≡ query) }
{
    let Ok(tested) = sub.tested.copy(alloc) else {
        drop(query);
        return Err(NoMemory);
    };
    Ok(Sublink {
        kind: sub.kind,
        tested,
        query,
    })
}
