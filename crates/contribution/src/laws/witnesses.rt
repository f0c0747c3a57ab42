//! Laws of witness lists.
ghost use Rattle.std.specs.Prelude.{◌≡◌, ◌≢◌, ◌↔◌, ◌≤◌, ◌++◌, List, [], All, Contains, IsTrue, Some, take};
ghost use Rattle.perm_values.specs.declared.kind.Kind.{Kind};
ghost use Rattle.bag_algebra.specs.Bags.{Row, Bag, member, count};
ghost use Rattle.bag_algebra.specs.Children.{subs_denote, sublink_value};
ghost use Rattle.bag_algebra.specs.Kinds.{shape, width_of};
ghost use Rattle.bag_algebra.specs.Meaning.{Database, meaning, witnesses};
ghost use Rattle.bag_algebra.specs.Means.{Witness, flat, sub_value, chosen};
ghost use Rattle.bag_algebra.specs.Outcome.{Good, Bad, Faults, each};
ghost use Rattle.bag_algebra.specs.built.Patterns.{ProvOf};
ghost use Rattle.bag_algebra.specs.declared.query.Query.{Query};
ghost use Rattle.bag_algebra.specs.declared.query.Sublink.{Sublink};
ghost use Rattle.contribution.specs.Fitting.{Fitting};
ghost use Rattle.contribution.specs.HeldRows.{held_rows, StandAt};
ghost use Rattle.contribution.specs.SublinkValues.{contributing_value};

/// No row is lost: where a query is good, a row is in its answer exactly where it has a witness list. Where it is bad no
/// row has one.
pub fn no_row_is_lost()
    ensures good { (q : Query) (db : Database) (env : List Row) (bag : Bag) (t : Row) →
        meaning q db env ≡ Good bag → IsTrue (member t bag) ↔ (witnesses q db env t ≢ []) }
    ensures bad { (q : Query) (db : Database) (env : List Row) (faults : Faults) (t : Row) →
        meaning q db env ≡ Bad faults → witnesses q db env t ≡ [] }
{}

/// Truth is kept: on each row of a node, each of its sublinks has the same value over the rows that contribute alone, with
/// their counts, as over all rows of its query.
pub fn contributing_rows_keep_the_value()
    ensures all_rows { (subs : List Sublink) (db : Database) (env : List Row) (u : Row) →
        (subs_denote subs db env).answers u ≡ each (sublink_value db env u) subs }
    ensures contributing_rows { (subs : List Sublink) (db : Database) (env : List Row) (u : Row) →
        (subs_denote subs db env).answers u ≡ each (contributing_value db env u) subs }
{}

/// Each entry of a witness list stands at the place of a source: it is empty, or a row of the source's table restricted
/// to the source's places. Where the source is outside all sublinks and outside the right sides of dependent joins it may be
/// over any input, and the row is one of that input's under the same outer rows.
pub fn entries_stand_at_their_places()
    ensures { (q : Query) (db : Database) (env : List Row) (t : Row) →
        All (StandAt (shape q) (held_rows q db (Some env))) (witnesses q db env t) }
{}

/// PROVENANCE of a query holds each of its rows beside each of the row's flattened witness lists, and each such pair once.
/// So its first columns are, as a set, the rows of the query. It is bad exactly where the query is, with the same faults.
pub fn provenance_stands_once()
    ensures once { (q : Query) (db : Database) (env : List Row) (found : Bag) (u : Row) →
        meaning (ProvOf q) db env ≡ Good found → count u found ≤ 1 }
    ensures pairs { (q : Query) (db : Database) (env : List Row) (bag found : Bag) (u : Row) →
        meaning q db env ≡ Good bag → meaning (ProvOf q) db env ≡ Good found →
        IsTrue (member u found) ↔
        ((t : Row) × (w : Witness) × IsTrue (member t bag) × Contains (witnesses q db env t) w ×
        (t ++ flat w ≡ u)) }
    ensures first_columns { (outer : List (List Kind)) (q : Query) (db : Database) (env : List Row)
        (bag found : Bag) →
        Fitting outer q db env → meaning q db env ≡ Good bag → meaning (ProvOf q) db env ≡ Good found →
        (t : Row) → IsTrue (member t bag) ↔
        ((u : Row) × IsTrue (member u found) × (take (width_of q) u ≡ t)) }
    ensures faults { (q : Query) (db : Database) (env : List Row) (faults : Faults) →
        (meaning (ProvOf q) db env ≡ Bad faults) ↔ (meaning q db env ≡ Bad faults) }
{}
