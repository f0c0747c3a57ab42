//! What is read decides what a query means: each law is the contract of a function that does nothing.
ghost use Rattle.std.specs.Prelude.{◌≡◌, ◌∷◌, ℕ, List};
ghost use Rattle.perm_values.specs.Rows.{picked};
ghost use Rattle.perm_values.specs.declared.value.Value.{Value};
ghost use Rattle.bag_algebra.specs.Bags.{Row};
ghost use Rattle.bag_algebra.specs.Expressions.{value};
ghost use Rattle.bag_algebra.specs.Meaning.{Database, meaning};
ghost use Rattle.bag_algebra.specs.declared.expr.Expr.{Expr};
ghost use Rattle.bag_algebra.specs.declared.query.Query.{Query};
ghost use Rattle.query_facts.specs.reached.reads.Columns.{Agree, AreNearest, columns_of, expr_columns};

/// A query means the same under outer rows with the same values in the columns that it reads: the same rows, or the same faults.
pub fn a_query_means_the_same_where_the_columns_that_it_reads_are_the_same()
    ensures { (q : Query) (db : Database) (env other : List Row) → Agree (columns_of q) env other
        → meaning q db env ≡ meaning q db other }
{}

/// The same of the value of an expression on a row.
pub fn an_expression_has_one_value_where_the_columns_that_it_reads_are_the_same()
    ensures { (e : Expr) (u v : Row) (env other : List Row) (answers : List Value) →
        Agree (expr_columns e) (u ∷ env) (v ∷ other) → value e u env answers ≡ value e v other answers }
{}

/// Two nearest outer rows with the same values at the places that a query reads of it give the query the same meaning.
pub fn rows_with_the_same_values_at_the_places_give_a_query_one_meaning()
    ensures { (q : Query) (places : List ℕ) (db : Database) (u v : Row) (env : List Row) →
        AreNearest (columns_of q) places → picked places u ≡ picked places v
        → meaning q db (u ∷ env) ≡ meaning q db (v ∷ env) }
{}
