//! Most nodes look at their inputs as sets: how often a row stands in an input decides neither which rows they give nor
//! which faults they meet.
ghost use Rattle.std.specs.Prelude.{◌≡◌, List, ◌∷◌, false, Bool, IsTrue};
ghost use Rattle.bag_algebra.specs.Bags.{Row, Bag, member};
ghost use Rattle.bag_algebra.specs.Kinds.{width_of};
ghost use Rattle.bag_algebra.specs.Meaning.{Database, meaning};
ghost use Rattle.bag_algebra.specs.Outcome.{Good};
ghost use Rattle.bag_algebra.specs.Rewriting.{SameSet};
ghost use Rattle.bag_algebra.specs.declared.expr.Expr.{Expr};
ghost use Rattle.bag_algebra.specs.declared.expr.Item.{Item};
ghost use Rattle.bag_algebra.specs.declared.query.JoinKind.{JoinKind};
ghost use Rattle.bag_algebra.specs.declared.query.Query.{Query};
ghost use Rattle.bag_algebra.specs.declared.query.Query.TheVariants.{Filter, Project, Join, Apply, Union, Intersect, Except, Distinct};
ghost use Rattle.bag_algebra.specs.declared.query.Sublink.{Sublink};

/// Over inputs that meet the same faults or have the same set of rows, selection, projection, join, DISTINCT and the set
/// operations meet the same faults or have the same set of rows; EXCEPT ALL, grouping and LIMIT count. So does a dependent
/// join whose right sides do under each left row that is there.
/// DISTINCT itself changes no set.
pub fn sets_of_rows_decide()
    ensures filter { (db : Database) (env : List Row) (input other : Query) →
        SameSet (meaning input db env) (meaning other db env) → (condition : Expr) (subs : List Sublink) →
        SameSet (meaning (Filter input condition subs) db env)
        (meaning (Filter other condition subs) db env) }
    ensures project { (db : Database) (env : List Row) (input other : Query) →
        SameSet (meaning input db env) (meaning other db env) → (items : List Item) (subs : List Sublink) →
        SameSet (meaning (Project input items subs) db env) (meaning (Project other items subs) db env) }
    ensures join { (db : Database) (env : List Row) (left right other_left other_right : Query) →
        SameSet (meaning left db env) (meaning other_left db env) →
        SameSet (meaning right db env) (meaning other_right db env) →
        (kind : JoinKind) (condition : Expr) (subs : List Sublink) → width_of left ≡ width_of other_left →
        width_of right ≡ width_of other_right →
        SameSet (meaning (Join kind left right condition subs) db env)
        (meaning (Join kind other_left other_right condition subs) db env) }
    ensures apply { (db : Database) (env : List Row) (left right other_left other_right : Query) →
        SameSet (meaning left db env) (meaning other_left db env) →
        ((us : Bag) (u : Row) → meaning left db env ≡ Good us → IsTrue (member u us) →
        SameSet (meaning right db (u ∷ env)) (meaning other_right db (u ∷ env))) →
        (kind : JoinKind) → width_of right ≡ width_of other_right →
        SameSet (meaning (Apply kind left right) db env)
        (meaning (Apply kind other_left other_right) db env) }
    ensures union { (db : Database) (env : List Row) (left right other_left other_right : Query) →
        SameSet (meaning left db env) (meaning other_left db env) →
        SameSet (meaning right db env) (meaning other_right db env) →
        (all : Bool) → SameSet (meaning (Union all left right) db env)
        (meaning (Union all other_left other_right) db env) }
    ensures intersect { (db : Database) (env : List Row) (left right other_left other_right : Query) →
        SameSet (meaning left db env) (meaning other_left db env) →
        SameSet (meaning right db env) (meaning other_right db env) →
        (all : Bool) → SameSet (meaning (Intersect all left right) db env)
        (meaning (Intersect all other_left other_right) db env) }
    ensures except { (db : Database) (env : List Row) (left right other_left other_right : Query) →
        SameSet (meaning left db env) (meaning other_left db env) →
        SameSet (meaning right db env) (meaning other_right db env) →
        SameSet (meaning (Except false left right) db env)
        (meaning (Except false other_left other_right) db env) }
    ensures distinct { (db : Database) (env : List Row) (input other : Query) →
        SameSet (meaning input db env) (meaning other db env) →
        SameSet (meaning (Distinct input) db env) (meaning (Distinct other) db env) }
    ensures distinct_is_free { (db : Database) (env : List Row) (q : Query) →
        SameSet (meaning (Distinct q) db env) (meaning q db env) }
{}
