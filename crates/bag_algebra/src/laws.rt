//! Laws of the definitions: each is the contract of a function that does nothing.
ghost use Rattle.bag_algebra.specs.Fits.{TablesFit};
ghost use Rattle.bag_algebra.specs.Meaning.{Database};
ghost use Rattle.bag_algebra.specs.TablesRead.{ReadsAmong};
ghost use Rattle.bag_algebra.specs.declared.query.Query.{Query};

/// A database that fits a query fits every query that reads no other tables.
pub fn what_fits_a_query_fits_what_reads_its_tables()
    ensures fits { (p q : Query) (db : Database) → ReadsAmong p q → TablesFit db q → TablesFit db p }
    ensures itself { (q : Query) → ReadsAmong q q }
    ensures onward { (p q o : Query) → ReadsAmong p q → ReadsAmong q o → ReadsAmong p o }
{}
