//! What a query doesn't reach changes nothing: each law is the contract of a function that does nothing.
ghost use Rattle.std.specs.Prelude.{◌≡◌, ◌≤◌, ◌++◌, ◌∷◌, ℕ, suc, false, List, length, take};
ghost use Rattle.perm_values.specs.declared.value.Value.{Value};
ghost use Rattle.bag_algebra.specs.Bags.{Row};
ghost use Rattle.bag_algebra.specs.Expressions.{value};
ghost use Rattle.bag_algebra.specs.Meaning.{Database, meaning};
ghost use Rattle.bag_algebra.specs.declared.expr.Expr.{Expr};
ghost use Rattle.bag_algebra.specs.declared.query.Query.{Query};
ghost use Rattle.query_facts.specs.reached.Reach.{query_reach, reach_of, reads_own_row};

/// A query means the same under two nearest outer rows of which as many of the first columns as it reads are the same.
pub fn a_query_reads_no_column_beyond_its_reach()
    ensures { (q : Query) (db : Database) (row other : Row) (env : List Row) →
        take (reach_of q) row ≡ take (reach_of q) other
        → meaning q db (row ∷ env) ≡ meaning q db (other ∷ env) }
{}

/// The same of an outer row behind others, and of more of its first columns.
pub fn outer_rows_are_read_no_further_than_the_query_reaches()
    ensures { (q : Query) (db : Database) (front : List Row) (row other : Row) (env : List Row) (n : ℕ) →
        query_reach q (suc (length front)) ≤ n → take n row ≡ take n other →
        meaning q db (front ++ row ∷ env) ≡ meaning q db (front ++ other ∷ env) }
{}

/// An expression that reads no column of its own row has one value on all rows.
pub fn an_expression_that_reads_no_own_column_has_one_value()
    ensures { (e : Expr) (u v : Row) (env : List Row) (answers : List Value) → reads_own_row e ≡ false →
        value e u env answers ≡ value e v env answers }
{}
