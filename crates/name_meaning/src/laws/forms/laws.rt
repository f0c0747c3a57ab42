//! Each law is the contract of a function that does nothing.
ghost use Rattle.std.specs.Prelude.{◌≡◌, ◌<◌, true, List, []};
ghost use Rattle.bag_algebra.specs.Closed.{is_closed};
ghost use Rattle.bag_algebra.specs.Kinds.{width_of};
ghost use Rattle.bag_algebra.specs.WellFormed.{WellFormed};
ghost use Rattle.name_meaning.specs.laws.Formed.{IsFormedExpr, IsAnswer};
ghost use Rattle.name_meaning.specs.laws.Standing.{RowsHold};
ghost use Rattle.name_meaning.specs.Meanings.{Surroundings, Before, Around, means_at, query_means_at, settled};
ghost use Rattle.name_meaning.specs.Trees.{part_of, query_of};
ghost use Rattle.perm_catalog.specs.Contents.{Contents};
ghost use Rattle.perm_catalog.specs.Sound.{IsSound};
ghost use Rattle.perm_values.specs.declared.kind.Kind.{Kind};
ghost use Rattle.sql_tree.specs.Regular.{RegularExpr, RegularQuery};
ghost use Rattle.sql_tree.specs.declared.expression.ExprTree.{ExprTree};
ghost use Rattle.sql_tree.specs.declared.query.QueryTree.{QueryTree};

/// Over a sound catalog, an expression that breaks nothing is made, at any wanted kind and behind whatever stands before
/// it, to one that is well formed and has its kind in rows that hold the scopes around it, with sublinks and aggregates
/// that are well formed there.
pub fn expressions_are_well_formed()
    ensures { (c : Contents) (tree : ExprTree) (here : Surroundings) → IsSound c → RegularExpr tree
        → (means_at (part_of c tree) here).breaks ≡ [] → (wanted : Kind) (before : Before)
        → IsFormedExpr here before ((means_at (part_of c tree) here).make wanted before)
        (settled (means_at (part_of c tree) here).kind wanted) }
{}

/// Over a sound catalog, a query that breaks nothing is made to one that is well formed under outer rows that hold the
/// scopes around it, whatever kinds are wanted of its columns.
pub fn queries_are_well_formed()
    ensures { (c : Contents) (tree : QueryTree) (around : Around) → IsSound c → RegularQuery tree
        → (query_means_at (query_of c tree) around).breaks ≡ [] → (rows : List (List Kind))
        → RowsHold around.outer rows → (wanted : List Kind)
        → WellFormed rows ((query_means_at (query_of c tree) around).make wanted) }
{}

/// With no scopes around it, it is well formed under no outer rows, and reads none.
pub fn outermost_queries_are_closed()
    ensures { (c : Contents) (tree : QueryTree) (around : Around) → IsSound c → RegularQuery tree
        → (query_means_at (query_of c tree) around).breaks ≡ [] → around.outer ≡ [] → (wanted : List Kind)
        → WellFormed [] ((query_means_at (query_of c tree) around).make wanted)
        × (is_closed ((query_means_at (query_of c tree) around).make wanted) ≡ true) }
{}

/// It has as many names as columns, and its keys and its provenance columns are among its columns.
pub fn queries_are_answers()
    ensures { (c : Contents) (tree : QueryTree) (around : Around) → IsSound c → RegularQuery tree
        → (query_means_at (query_of c tree) around).breaks ≡ []
        → IsAnswer (query_means_at (query_of c tree) around) }
{}

/// It has at least one column.
pub fn queries_have_a_column()
    ensures { (c : Contents) (tree : QueryTree) (around : Around) → IsSound c → RegularQuery tree
        → (query_means_at (query_of c tree) around).breaks ≡ [] → (wanted : List Kind)
        → 0 < width_of ((query_means_at (query_of c tree) around).make wanted) }
{}
