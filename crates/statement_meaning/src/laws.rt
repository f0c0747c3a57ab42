//! Laws of statements whose names are looked up, and of what queries answer, with PROVENANCE and without.
//! Each law is the contract of a function that does nothing.
ghost use Rattle.std.specs.Prelude.{◌≡◌, ◌≢◌, ℕ, Bool, List, [], Option, Some, IfSome, Contains, codes};
ghost use Rattle.bag_algebra.specs.Bags.{Bag};
ghost use Rattle.bag_algebra.specs.Outcome.{Good, each};
ghost use Rattle.bag_algebra.specs.declared.expr.Expr.{Expr};
ghost use Rattle.bag_algebra.specs.declared.query.Answer.{Answer};
ghost use Rattle.bag_algebra.specs.declared.query.Query.{Query};
ghost use Rattle.name_meaning.specs.Statements.{breaks, resolved};
ghost use Rattle.name_meaning.specs.declared.answer.Break.{Break};
ghost use Rattle.name_meaning.specs.declared.rule.Rule.TheVariants.{NumbersSpent};
ghost use Rattle.name_meaning.specs.declared.answer.Resolved.{Resolved};
ghost use Rattle.name_meaning.specs.declared.answer.Resolved.TheVariants as made;
ghost use Rattle.perm_catalog.specs.Changes.{table_named};
ghost use Rattle.perm_catalog.specs.Contents.{Contents};
ghost use Rattle.perm_catalog.specs.Sound.{IsSound};
ghost use Rattle.perm_catalog.specs.Stored.{IsFresh};
ghost use Rattle.perm_catalog.specs.declared.column.Column.{Column};
ghost use Rattle.perm_catalog.specs.declared.entries.StoredQuery.{StoredQuery};
ghost use Rattle.perm_catalog.specs.declared.entries.TableEntry.{TableEntry};
ghost use Rattle.perm_values.specs.Marked.{unmarked};
ghost use Rattle.sql_tree.specs.Regular.{RegularStatement};
ghost use Rattle.sql_tree.specs.declared.statement.Statement.{Statement};
ghost use Rattle.delete_impact.specs.vanishing.Doomed.{doomed_on};
ghost use Rattle.statement_meaning.specs.laws.Freshened.{IsStoredRead, IsStill, IsUnread, MeetsStored, StoresFresh, StoresNothing, filled, written};
ghost use Rattle.statement_meaning.specs.laws.Kept.{rows_left};
ghost use Rattle.statement_meaning.specs.laws.Leaving.{Leaves};
ghost use Rattle.statement_meaning.specs.laws.Sounder.{AddsSoundly, KeepsSound};
ghost use Rattle.statement_meaning.specs.Asking.{asks};
ghost use Rattle.statement_meaning.specs.Ready.{IsReady};
ghost use Rattle.statement_meaning.specs.Turns.{Accepted, show_fresh};

use stored_provenance::a_new_stored_query_is_sound;

mod answers;

pub use answers::{
    a_plain_answer_is_its_rows, a_query_changes_nothing, a_refused_statement_changes_nothing,
    an_explanation_means_what_its_query_means, an_impact_answers_the_rows_that_vanish,
    answers_are_as_wide_as_their_headers, nested_provenance_means_the_same,
    no_answered_row_is_lost, provenance_answers_are_rows_beside_witness_lists,
    provenance_stands_beside_the_plain_answer, the_word_asks_for_provenance,
};

/// Over a sound catalog, a statement that breaks no rule of names and kinds can be carried out.
pub fn whole_statements_are_ready()
    ensures { (c : Contents) (statement : Statement) → IsSound c → RegularStatement statement
        → breaks c statement ≡ [] → IsReady c (resolved c statement) }
{}

/// Where the condition of a DELETE meets no fault on any row, the rows that it doesn't flag are those of which the condition
/// isn't true, as often and in the order in which they stood.
pub fn delete_leaves_the_other_rows()
    ensures { (condition : Option Expr) (rows : Bag) (doomed : List Bool)
        → each (doomed_on condition) rows ≡ Good doomed → unmarked doomed rows ≡ rows_left condition rows }
{}

/// A statement that can be carried out, and adds what is sound, keeps a sound catalog sound, whatever became of its file.
pub fn statements_keep_catalogs_sound()
    ensures { (c : Contents) → IsSound c → (at : ℕ) (statement : Resolved)
        → IsReady c statement → AddsSoundly c statement → KeepsSound (asks c at statement) }
{
    a_new_stored_query_is_sound();
}

/// Over a sound catalog, a statement that breaks no rule adds columns of a table, rows of the kinds of their
/// table's columns, a sound view, and what a query gives that reads the catalog's tables.
pub fn whole_statements_add_soundly()
    ensures { (c : Contents) (statement : Statement) → IsSound c → RegularStatement statement
        → breaks c statement ≡ [] → AddsSoundly c (resolved c statement) }
{}

/// No rule of names and kinds is the want of a number to draw.
pub fn no_rule_wants_a_number()
    ensures { (c : Contents) (statement : Statement) (b : Break)
        → Contains (breaks c statement) b → b.rule ≢ NumbersSpent }
{}

/// Over a sound catalog, of a table that stores provenance and a statement that can be carried out: where the
/// statement writes or drops none of the tables that the stored query read, what is fresh stays so; where it
/// writes or drops one, it isn't fresh then; and what isn't fresh never is again.
pub fn fresh_tables_stay_fresh()
    ensures kept { (c : Contents) (at : ℕ) (statement : Resolved)
        (name : List ℕ) (table : TableEntry) (stored : StoredQuery)
        → MeetsStored c statement name table stored → IsFresh c stored
        → IfSome (written statement) (IsUnread c stored)
        → Leaves (λ d. IsFresh d stored) (asks c at statement) }
    ensures ended { (c : Contents) (at : ℕ) (statement : Resolved)
        (name : List ℕ) (table : TableEntry) (stored : StoredQuery)
        → MeetsStored c statement name table stored
        → (changed : List ℕ) → written statement ≡ Some changed → IsStoredRead c stored changed
        → Leaves (λ d. IsFresh d stored → ⊥) (asks c at statement) }
    ensures for_good { (c : Contents) (at : ℕ) (statement : Resolved)
        (name : List ℕ) (table : TableEntry) (stored : StoredQuery)
        → MeetsStored c statement name table stored
        → Leaves (λ d. IsFresh d stored → IsFresh c stored) (asks c at statement) }
{
    statements_keep_catalogs_sound();
}

/// Over a sound catalog, where CREATE TABLE AS with PROVENANCE is accepted, its table stores the query and is
/// fresh; and of such a table SHOW FRESH says so.
pub fn a_stored_query_is_fresh()
    ensures left { (c : Contents) (at : ℕ) (name : List ℕ) (columns : List Column)
        (answer : Answer) (places : List ℕ)
        → IsSound c → IsReady c (made.CreateTableAs name columns answer (Some places))
        → AddsSoundly c (made.CreateTableAs name columns answer (Some places))
        → Leaves (StoresFresh name answer.query)
        (asks c at (made.CreateTableAs name columns answer (Some places))) }
    ensures shown { (name : List ℕ) (query : Query) (c : Contents) → StoresFresh name query c
        → show_fresh c name ≡ Accepted (codes "fresh\n") c }
{
    a_new_stored_query_is_sound();
}

/// A table to which a statement adds rows, or from which it takes some, stores no provenance then, also where no
/// row came or went; and over a sound catalog each table that it neither writes nor drops is what it was.
pub fn a_written_table_stores_nothing()
    ensures forgotten { (c : Contents) (at : ℕ) (statement : Resolved) (name : List ℕ)
        → IsReady c statement → filled statement ≡ Some name
        → Leaves (StoresNothing name) (asks c at statement) }
    ensures others { (c : Contents) (at : ℕ) (statement : Resolved) (name : List ℕ) (table : TableEntry)
        → IsSound c → IsReady c statement → table_named c name ≡ Some table
        → IfSome (written statement) (λ changed. changed ≢ name)
        → Leaves (IsStill name table) (asks c at statement) }
{}
