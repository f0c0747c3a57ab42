//! What a table that stores provenance stands for: each law is the contract of a function that does nothing.
ghost use Rattle.std.specs.Prelude.{◌≡◌, ℕ, List, [], Some, length};
ghost use Rattle.perm_values.specs.Rows.{PlacesWithin};
ghost use Rattle.bag_algebra.specs.Bags.{Bag, Row};
ghost use Rattle.bag_algebra.specs.Kinds.{kinds_of};
ghost use Rattle.bag_algebra.specs.Meaning.{denote, meaning};
ghost use Rattle.bag_algebra.specs.Outcome.{Good};
ghost use Rattle.bag_algebra.specs.Rewriting.{SameRows};
ghost use Rattle.bag_algebra.specs.TableRows.{rows_in};
ghost use Rattle.bag_algebra.specs.TablesRead.{EachTable};
ghost use Rattle.bag_algebra.specs.WellFormed.{WellFormed};
ghost use Rattle.bag_algebra.specs.built.Patterns.{ProvOf};
ghost use Rattle.bag_algebra.specs.declared.query.Query.{Query};
ghost use Rattle.contribution.specs.SameMeaning.{SameMeaning};
ghost use Rattle.perm_catalog.specs.Changes.{table_named};
ghost use Rattle.perm_catalog.specs.Columns.{column_kinds};
ghost use Rattle.perm_catalog.specs.Contents.{Contents};
ghost use Rattle.perm_catalog.specs.Sound.{IsSound};
ghost use Rattle.perm_catalog.specs.Stored.{IsFresh, IsSoundStored, stored_of};
ghost use Rattle.perm_catalog.specs.declared.column.Column.{Column};
ghost use Rattle.perm_catalog.specs.declared.entries.StoredQuery.{StoredQuery};
ghost use Rattle.perm_catalog.specs.declared.entries.TableEntry.{TableEntry as Table};
ghost use Rattle.query_laws.specs.replaced.OverQueries.{over_queries, standing};
ghost use Rattle.perm_catalog.specs.Held.{IsHeldTable};

/// Over a sound catalog, a table made of a query with PROVENANCE, which reads no outer row and none but the
/// catalog's tables, of the table's kinds, whose rows are the query's, remembers what is sound; and it is
/// fresh.
pub fn a_new_stored_query_is_sound()
    ensures { (c : Contents) (columns : List Column) (rows : Bag) (input : Query) (places : List ℕ) →
        IsSound c → WellFormed [] (ProvOf input) → EachTable (IsHeldTable c) (ProvOf input) →
        kinds_of (ProvOf input) ≡ column_kinds columns → PlacesWithin (length columns) places →
        SameRows (meaning (ProvOf input) (rows_in c.rows) []) (Good rows) →
        IsSoundStored c columns rows (stored_of c (ProvOf input) places)
        × IsFresh c (stored_of c (ProvOf input) places) }
{}

/// In each query that reads none but the tables of a sound catalog, a fresh table may be replaced by the
/// query that it stores: on the catalog's tables, under all outer rows, the two have the same set of faults,
/// or the same bag of rows, and each row has the same witness lists.
pub fn a_fresh_table_stands_for_its_query()
    ensures { (c : Contents) (name : List ℕ) (table : Table) (stored : StoredQuery) (q : Query)
        (env : List Row) → IsSound c → table_named c name ≡ Some table →
        table.stored ≡ Some stored → IsFresh c stored → EachTable (IsHeldTable c) q →
        SameMeaning (denote q (rows_in c.rows) env)
        (denote (over_queries (standing table.id stored.query) q) (rows_in c.rows) env) }
{}
