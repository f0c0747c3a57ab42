//! The order in which a table's rows stand changes no answer, and nor does a table that the query doesn't read.
ghost use Rattle.perm_values.specs.declared.value.Value.{Value};
ghost use Rattle.std.specs.Prelude.{◌≡◌, List};
ghost use Rattle.bag_algebra.specs.Fits.{TablesFit};
ghost use Rattle.bag_algebra.specs.Meaning.{Database, denote};
ghost use Rattle.bag_algebra.specs.declared.query.Query.{Query};
ghost use Rattle.contribution.specs.SameMeaning.{EqualTables, SameTables, SameMeaning};

/// On databases that have the same bag for each table of a query, it has the same set of faults, or the same bag of
/// rows, and each row has the same witness lists; and what fits the query fits it still.
pub fn order_of_rows_is_free()
    ensures meaning { (q : Query) (db other : Database) (env : List (List Value)) →
        SameTables db other q → SameMeaning (denote q db env) (denote q other env) }
    ensures fitting { (q : Query) (db other : Database) → SameTables db other q → TablesFit db q →
        TablesFit other q }
{}

/// A query reads its own tables alone: where databases have the same rows for each of them, it means the same.
pub fn queries_read_their_tables_alone()
    ensures { (q : Query) (db other : Database) (env : List (List Value)) →
        EqualTables db other q → denote q db env ≡ denote q other env }
{}
