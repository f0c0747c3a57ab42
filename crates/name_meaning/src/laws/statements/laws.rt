//! Each law is the contract of a function that does nothing.
ghost use Rattle.std.specs.Prelude.{◌≡◌, [], Option};
ghost use Rattle.name_meaning.specs.laws.Impacts.{ImpactStands};
ghost use Rattle.name_meaning.specs.Statements.{answer_of, delete_made, impact_query, name_breaks};
ghost use Rattle.perm_catalog.specs.Contents.{Contents};
ghost use Rattle.perm_catalog.specs.Sound.{IsSound};
ghost use Rattle.sql_tree.specs.Regular.{RegularStatementBody};
ghost use Rattle.sql_tree.specs.declared.expression.ExprTree.{ExprTree};
ghost use Rattle.sql_tree.specs.declared.name.Name.{Name};
ghost use Rattle.sql_tree.specs.declared.query.QueryTree.{QueryTree};
ghost use Rattle.sql_tree.specs.declared.statement.StatementBody.TheVariants.{Impact};

/// Over a sound catalog, a regular IMPACT that breaks no rule of names and kinds names a table of the catalog. Its query is
/// monotone, closed, well formed under no outer rows, and reads the catalog's tables with their kinds. Its condition is a truth on
/// the kinds of the table's columns, and on those that the query reads of the table.
pub fn impacts_can_be_answered()
    ensures { (c : Contents) (table : Name) (condition : Option ExprTree) (query : QueryTree) → IsSound c
        → RegularStatementBody (Impact table condition query)
        → name_breaks c (Impact table condition query) ≡ []
        → ImpactStands c table.text (delete_made c table condition) (answer_of (impact_query c query)).query }
{}
