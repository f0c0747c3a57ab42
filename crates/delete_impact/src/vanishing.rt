//! Laws of deletions: which rows of a monotone query vanish where rows of a table are deleted. No code stands on them.
//! The laws: contracts of functions that do nothing.
ghost use Rattle.std.specs.Prelude.{◌≡◌, ◌≢◌, ◌↔◌, ℕ, List, [], Option, All, IsTrue};
ghost use Rattle.bag_algebra.specs.Bags.{Row, Bag, member};
ghost use Rattle.bag_algebra.specs.Fits.{TablesFit};
ghost use Rattle.bag_algebra.specs.Meaning.{Database, meaning, witnesses};
ghost use Rattle.bag_algebra.specs.Outcome.{Good};
ghost use Rattle.bag_algebra.specs.TablesRead.{EachTable};
ghost use Rattle.bag_algebra.specs.declared.expr.Expr.{Expr};
ghost use Rattle.bag_algebra.specs.declared.query.Query.{Query};
ghost use Rattle.delete_impact.specs.vanishing.Doomed.{after_deletion, has_doomed, places_over};
ghost use Rattle.delete_impact.specs.vanishing.Vanishing.{Vanishes};
ghost use Rattle.query_facts.specs.monotone.Monotone.{is_monotone};

/// Where a monotone query is good on a database that fits it, a row vanishes by a deletion exactly where it is in the answer and
/// each of its witness lists has a doomed row of the table, at a place whose source is over that table (after Glavic and
/// Alonso, ICDE 2009, 'contribution semantics'). An empty place never is a doomed row.
pub fn a_row_vanishes_where_each_of_its_lists_has_a_doomed_row()
    ensures { (q : Query) (id : ℕ) (condition : Option Expr) (db : Database) (t : Row) (us : Bag) →
        IsTrue (is_monotone q) → TablesFit db q → meaning q db [] ≡ Good us →
        Vanishes q id condition db t ↔ (IsTrue (member t us) ×
        All (λ w. IsTrue (has_doomed condition (places_over id q) w)) (witnesses q db [] t)) }
{}

/// Where a monotone query is good on a database that fits it, it is good once rows of a table are deleted, under the same outer
/// rows, and has no row that it didn't have.
pub fn a_monotone_query_gains_no_row_by_a_deletion()
    ensures { (q : Query) (id : ℕ) (condition : Option Expr) (db : Database) (env : List Row) (us : Bag) →
        IsTrue (is_monotone q) → TablesFit db q → meaning q db env ≡ Good us →
        (vs : Bag) × (meaning q (after_deletion id condition db) env ≡ Good vs) ×
        ((t : Row) → IsTrue (member t vs) → IsTrue (member t us)) }
{}

/// By a deletion from a table that a query doesn't read no row of it vanishes.
pub fn where_a_table_is_not_read_nothing_changes()
    ensures { (q : Query) (id : ℕ) (condition : Option Expr) (db : Database) (t : Row) →
        EachTable (λ other kinds. other ≢ id) q → Vanishes q id condition db t → ⊥ }
{}
