//! A query in the place of one table.
ghost use Rattle.std.specs.Prelude.{◌≡◌, ◌≢◌, ◌↔◌, ℕ, List, [], Contains};
ghost use Rattle.perm_values.specs.declared.kind.Kind.{Kind};
ghost use Rattle.bag_algebra.specs.Bags.{Row};
ghost use Rattle.bag_algebra.specs.Fits.{TablesFit};
ghost use Rattle.bag_algebra.specs.Kinds.{kinds_of, shape};
ghost use Rattle.bag_algebra.specs.Meaning.{Database, denote, meaning};
ghost use Rattle.bag_algebra.specs.Outcome.{Good};
ghost use Rattle.bag_algebra.specs.Rewriting.{SameRows};
ghost use Rattle.bag_algebra.specs.TablesRead.{EachTable, TableRead, tables_read};
ghost use Rattle.bag_algebra.specs.WellFormed.{WellFormed};
ghost use Rattle.bag_algebra.specs.declared.query.Query.{Query};
ghost use Rattle.contribution.specs.SameMeaning.{SameMeaning};
ghost use Rattle.query_laws.specs.replaced.OverQueries.{over_queries, standing, ReadsAs};
ghost use Rattle.query_laws.specs.replaced.TablesOver.{IsReadOver};

/// A closed query without places that is good on a database, and has there, as a bag, the rows of a table,
/// may stand in the place of the table in each query that reads it with columns of these kinds: under all
/// outer rows that has the same set of faults, or the same bag of rows, and each row has the same witness
/// lists.
pub fn a_table_may_be_replaced_by_a_query_with_its_rows()
    ensures { (id : ℕ) (p q : Query) (db : Database) (env : List Row) →
        WellFormed [] p → shape p ≡ [] → SameRows (meaning p db []) (Good (db id)) →
        ReadsAs id (kinds_of p) q →
        SameMeaning (denote q db env) (denote (over_queries (standing id p) q) db env) }
{}

/// With a query without places in the place of a table with columns of its kinds, a query has the columns and
/// the places that it had; and where the one in the place is closed, it is well formed where it was.
pub fn a_query_in_place_of_a_table_keeps_the_columns()
    ensures kinds { (id : ℕ) (p q : Query) → shape p ≡ [] → ReadsAs id (kinds_of p) q →
        kinds_of (over_queries (standing id p) q) ≡ kinds_of q }
    ensures places { (id : ℕ) (p q : Query) → shape p ≡ [] → ReadsAs id (kinds_of p) q →
        shape (over_queries (standing id p) q) ≡ shape q }
    ensures formed { (id : ℕ) (p q : Query) (outer : List (List Kind)) →
        WellFormed [] p → shape p ≡ [] → ReadsAs id (kinds_of p) q →
        WellFormed outer q → WellFormed outer (over_queries (standing id p) q) }
{}

/// With a query in the place of a table, a query reads its other tables and, where it read that one, the
/// tables of the query in its place; and a database that fits both fits it.
pub fn a_query_in_place_of_a_table_is_read()
    ensures tables { (id : ℕ) (p q : Query) (read : TableRead) →
        Contains (tables_read (over_queries (standing id p) q)) read ↔ IsReadOver id p q read }
    ensures fitting { (id : ℕ) (p q : Query) (db : Database) → TablesFit db p → TablesFit db q →
        TablesFit db (over_queries (standing id p) q) }
{}

/// A query that doesn't read the table stays as it is.
pub fn what_does_not_read_a_table_stays()
    ensures { (id : ℕ) (p q : Query) → EachTable (λ other own. other ≢ id) q →
        over_queries (standing id p) q ≡ q }
{}
