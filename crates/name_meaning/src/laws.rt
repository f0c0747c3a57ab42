//! Laws of what a statement means: its kinds, and the facts that its provenance rests on; that
//! what names make is well formed; that it reads tables of the catalog alone; and that an IMPACT can be answered.
//! Each law is the contract of a function that does nothing.
ghost use Rattle.std.specs.Prelude.{◌≡◌, ℕ, List, []};
ghost use Rattle.bag_algebra.specs.declared.query.Query.{Query};
ghost use Rattle.name_meaning.specs.laws.Facts.{facts_of, sub_facts};
ghost use Rattle.name_meaning.specs.laws.Known.{HasItsKinds, FromIsKnown};
ghost use Rattle.name_meaning.specs.Meanings.{Surroundings, Before, Around, means_at, query_means_at};
ghost use Rattle.name_meaning.specs.Trees.{part_of, query_of, from_of};
ghost use Rattle.name_meaning.specs.declared.scope.Scope.{Scope};
ghost use Rattle.perm_catalog.specs.Contents.{Contents};
ghost use Rattle.perm_catalog.specs.Sound.{IsSound};
ghost use Rattle.perm_values.specs.declared.kind.Kind.{Kind};
ghost use Rattle.sql_tree.specs.declared.expression.ExprTree.{ExprTree};
ghost use Rattle.sql_tree.specs.declared.query.QueryTree.{QueryTree};
ghost use Rattle.sql_tree.specs.declared.source.FromTree.{FromTree};

mod forms;
mod statements;
mod tables;

pub use forms::{
    expressions_are_well_formed, outermost_queries_are_closed, queries_are_answers,
    queries_are_well_formed, queries_have_a_column,
};
pub use statements::impacts_can_be_answered;
pub use tables::{tables_fit_queries, views_name_what_they_read};

/// Over a sound catalog, the columns of a query that breaks nothing are known, and the query that it is made to has
/// their kinds.
pub fn queries_have_their_kinds()
    ensures { (c : Contents) (tree : QueryTree) (around : Around) → IsSound c
        → (query_means_at (query_of c tree) around).breaks ≡ []
        → HasItsKinds (query_means_at (query_of c tree) around) }
{}

/// The places of a query are the same whatever kinds are wanted of its columns.
pub fn queries_keep_their_facts()
    ensures { (c : Contents) (tree : QueryTree) (around : Around) (wanted : List Kind) →
        facts_of ((query_means_at (query_of c tree) around).make wanted)
        ≡ facts_of ((query_means_at (query_of c tree) around).make []) }
{}

/// Those of an expression's sublinks are the same whatever kind is wanted of it and whatever stands before it.
pub fn expressions_keep_their_facts()
    ensures { (c : Contents) (tree : ExprTree) (here : Surroundings) (wanted other : Kind)
        (before earlier : Before) →
        sub_facts ((means_at (part_of c tree) here).make wanted before).subs
        ≡ sub_facts ((means_at (part_of c tree) here).make other earlier).subs }
{}

/// Over a sound catalog, the items of a FROM that breaks nothing are known, and its rows have their columns side by side.
pub fn from_is_known()
    ensures { (c : Contents) (tree : FromTree) (outer : List Scope) (earlier : List (List ℕ))
        → IsSound c
        → ((from_of c tree).means outer earlier).breaks ≡ []
        → FromIsKnown ((from_of c tree).means outer earlier) }
{}
