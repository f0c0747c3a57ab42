//! Queries in the place of all tables.
ghost use Rattle.std.specs.Prelude.{◌≡◌, ℕ, List, []};
ghost use Rattle.std.specs.List.{flat_map};
ghost use Rattle.perm_values.specs.declared.kind.Kind.{Kind};
ghost use Rattle.bag_algebra.specs.Bags.{Row};
ghost use Rattle.bag_algebra.specs.Fits.{TablesFit};
ghost use Rattle.bag_algebra.specs.Kinds.{kinds_of, shape};
ghost use Rattle.bag_algebra.specs.Meaning.{Database, denote};
ghost use Rattle.bag_algebra.specs.TablesRead.{EachTable, tables_read};
ghost use Rattle.bag_algebra.specs.WellFormed.{WellFormed};
ghost use Rattle.bag_algebra.specs.declared.query.Query.TheVariants.{Table};
ghost use Rattle.bag_algebra.specs.declared.query.Query.{Query};
ghost use Rattle.contribution.specs.SameMeaning.{SameMeaning};
ghost use Rattle.query_laws.specs.replaced.OverQueries.{over_queries, HasColumns, HasTable};
ghost use Rattle.query_laws.specs.replaced.TablesOver.{read_at};

/// Over queries that have the columns and the rows of its tables a query has the same set of faults, or the
/// same bag of rows, and each row has the same witness lists.
pub fn tables_may_be_replaced_by_queries_with_their_rows()
    ensures { (at : ℕ → List Kind → Query) (q : Query) (db : Database) (env : List Row) →
        EachTable (λ id kinds. HasTable db id kinds (at id kinds)) q →
        SameMeaning (denote q db env) (denote (over_queries at q) db env) }
{}

/// Over queries that have the columns of its tables a query has the columns and the places that it had; and
/// where they are closed, it is well formed where it was.
pub fn queries_in_place_of_tables_keep_the_columns()
    ensures kinds { (at : ℕ → List Kind → Query) (q : Query) →
        EachTable (λ id kinds. HasColumns kinds (at id kinds)) q →
        kinds_of (over_queries at q) ≡ kinds_of q }
    ensures places { (at : ℕ → List Kind → Query) (q : Query) →
        EachTable (λ id kinds. HasColumns kinds (at id kinds)) q → shape (over_queries at q) ≡ shape q }
    ensures formed { (at : ℕ → List Kind → Query) (q : Query) (outer : List (List Kind)) →
        EachTable (λ id kinds. HasColumns kinds (at id kinds)) q →
        EachTable (λ id kinds. WellFormed [] (at id kinds)) q →
        WellFormed outer q → WellFormed outer (over_queries at q) }
{}

/// Over queries a query reads, for each of its tables in order, the tables of the query in its place; and a
/// database that fits these fits it.
pub fn queries_in_place_of_tables_are_read()
    ensures tables { (at : ℕ → List Kind → Query) (q : Query) →
        tables_read (over_queries at q) ≡ flat_map (read_at at) (tables_read q) }
    ensures fitting { (at : ℕ → List Kind → Query) (q : Query) (db : Database) →
        EachTable (λ id kinds. TablesFit db (at id kinds)) q → TablesFit db (over_queries at q) }
{}

/// Where each table stands in its own place, the query is itself.
pub fn tables_in_their_own_places_change_nothing()
    ensures { (at : ℕ → List Kind → Query) (q : Query) →
        EachTable (λ id kinds. at id kinds ≡ Table id kinds) q → over_queries at q ≡ q }
{}
