//! The cross base of a query holds its flattened lists.
ghost use Rattle.std.specs.Prelude.{◌≡◌, List, Contains, IsTrue};
ghost use Rattle.perm_values.specs.declared.value.Value.{Value};
ghost use Rattle.bag_algebra.specs.Bags.{Row, Bag, member};
ghost use Rattle.bag_algebra.specs.Meaning.{Database, meaning, witnesses};
ghost use Rattle.bag_algebra.specs.Means.{Witness, flat};
ghost use Rattle.bag_algebra.specs.Outcome.{Good};
ghost use Rattle.bag_algebra.specs.Scoped.{over_tables};
ghost use Rattle.bag_algebra.specs.declared.query.Query.{Query};
ghost use Rattle.contribution.specs.CrossBase.{cross_base_of};

/// Where all sources of a query are over tables, each flattened witness list of each of its rows, under whatever outer
/// rows, is a row of its cross base.
pub fn flattened_lists_stand_in_the_cross_base()
    ensures { (q : Query) (db : Database) (env other : List Row) (t : Row) (w : Witness) →
        IsTrue (over_tables q) → Contains (witnesses q db env t) w →
        (found : Bag) × (meaning (cross_base_of q) db other ≡ Good found) × IsTrue (member (flat w) found) }
{}
