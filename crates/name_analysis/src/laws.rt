//! Each law is the contract of a function that does nothing.
ghost use Rattle.std.specs.Prelude.{◌≡◌, []};
ghost use Rattle.name_analysis.specs.Stands.{BodyStands};
ghost use Rattle.name_meaning.specs.Statements.{breaks, resolved};
ghost use Rattle.perm_catalog.specs.Contents.{Contents};
ghost use Rattle.perm_catalog.specs.Sound.{IsSound};
ghost use Rattle.sql_tree.specs.Regular.{RegularStatement};
ghost use Rattle.sql_tree.specs.declared.statement.Statement.{Statement};

/// Over a sound catalog, the query in what a regular statement resolves to that breaks no rule is well formed and closed,
/// has the kinds of its columns, a name for each of them and keys among them, and reads the catalog's tables with
/// their kinds.
pub fn resolved_queries_stand()
    ensures { (c : Contents) (statement : Statement) → IsSound c → RegularStatement statement
        → breaks c statement ≡ [] → BodyStands c statement.body (resolved c statement) }
{}
