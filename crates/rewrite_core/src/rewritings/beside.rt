//! The law of the relation: the contract of a function that does nothing.
ghost use Rattle.std.specs.Prelude.{List};
ghost use Rattle.bag_algebra.specs.Bags.{Row};
ghost use Rattle.bag_algebra.specs.Meaning.{Database, meaning, witnesses};
ghost use Rattle.bag_algebra.specs.Rewriting.{SameSet};
ghost use Rattle.bag_algebra.specs.declared.query.Query.TheVariants.{Prov};
ghost use Rattle.bag_algebra.specs.declared.query.Query.{Query};
ghost use Rattle.rewrite_core.specs.rewritings.Rewritten.{Rewritten};

/// A query has the rows of another's PROVENANCE, as a set, or its faults, exactly where it is bad with the other's faults,
/// or good with the other's rows beside their flattened lists as its rows.
pub fn rewritings_stand_beside_lists()
    ensures beside { (q p : Query) (db : Database) (env : List Row) →
        SameSet (meaning (Prov q) db env) (meaning p db env) →
        Rewritten (witnesses q db env) (meaning q db env) (meaning p db env) }
    ensures same { (q p : Query) (db : Database) (env : List Row) →
        Rewritten (witnesses q db env) (meaning q db env) (meaning p db env) →
        SameSet (meaning (Prov q) db env) (meaning p db env) }
{}
