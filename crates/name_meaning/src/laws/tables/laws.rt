//! Each law is the contract of a function that does nothing.
ghost use Rattle.std.specs.Prelude.{List, All};
ghost use Rattle.bag_algebra.specs.Fits.{TablesFit};
ghost use Rattle.bag_algebra.specs.TableRows.{rows_in};
ghost use Rattle.bag_algebra.specs.TablesRead.{tables_read};
ghost use Rattle.name_meaning.specs.Meanings.{Around, query_means_at};
ghost use Rattle.name_meaning.specs.Statements.{query_meant, view_entry};
ghost use Rattle.name_meaning.specs.Trees.{query_of};
ghost use Rattle.perm_catalog.specs.Contents.{Contents};
ghost use Rattle.perm_catalog.specs.Sound.{IsHeldRead, IsSound};
ghost use Rattle.perm_values.specs.declared.kind.Kind.{Kind};
ghost use Rattle.sql_tree.specs.declared.query.QueryTree.{QueryTree};

/// Over a sound catalog, whether or not it breaks a rule, a query is made to one whose tables are the catalog's: each holds
/// rows of the kinds that the query reads.
pub fn tables_fit_queries()
    ensures { (c : Contents) (tree : QueryTree) (around : Around) → IsSound c → (wanted : List Kind)
        → TablesFit (rows_in c.rows) ((query_means_at (query_of c tree) around).make wanted) }
{}

/// The view of a query, over a sound catalog, reads tables that the catalog holds under names that the view notes, directly
/// or through other views.
pub fn views_name_what_they_read()
    ensures { (c : Contents) (tree : QueryTree) → IsSound c
        → All (IsHeldRead c (view_entry (query_meant c tree)))
        (tables_read (view_entry (query_meant c tree)).answer.query) }
{}
