//! The law of each node: the contract of a function that does nothing.
ghost use Rattle.std.specs.Prelude.{◌≡◌, ℕ, Bool, List, ◌∷◌, ◌++◌, IsTrue};
ghost use Rattle.perm_values.specs.declared.key.Key.{Key};
ghost use Rattle.bag_algebra.specs.Bags.{Row, Bag, member};
ghost use Rattle.bag_algebra.specs.Kinds.{width_of};
ghost use Rattle.bag_algebra.specs.Meaning.{Database, meaning};
ghost use Rattle.bag_algebra.specs.Outcome.{Good};
ghost use Rattle.bag_algebra.specs.Rewriting.{SameRows, Stands};
ghost use Rattle.bag_algebra.specs.declared.expr.Expr.{Expr};
ghost use Rattle.bag_algebra.specs.declared.expr.Item.{Item};
ghost use Rattle.bag_algebra.specs.declared.query.Aggr.{Aggr};
ghost use Rattle.bag_algebra.specs.declared.query.JoinKind.{JoinKind};
ghost use Rattle.bag_algebra.specs.declared.query.Label.{Label};
ghost use Rattle.bag_algebra.specs.declared.query.Query.TheVariants.{Base, Filter, Project, Join, Apply, Union, Intersect, Except, Distinct, Aggregate, Limit};
ghost use Rattle.bag_algebra.specs.declared.query.Query.{Query};
ghost use Rattle.bag_algebra.specs.declared.query.Sublink.{Sublink};
ghost use Rattle.query_laws.specs.Agreeing.{SubsAgree};
ghost use Rattle.query_laws.specs.SameExpressions.{SameAggregates, SameExpr, SameItems};
ghost use Rattle.query_laws.specs.Standing.{SubsStand};

/// Of its inputs a node sees the rows, each as often as it stands there, or the faults; a dependent join sees those of its
/// right side under each row of its left one. Of its sublinks a node sees, on each row of its input, a join on each pair of
/// rows of its inputs, the rows of their queries or the faults; of its expressions the values. A join takes the widths of its
/// inputs for its NULLs. Of PROVENANCE nothing is said: it sees witness lists.
pub fn nodes_see_rows_alone()
    ensures base { (input other : Query) (places : List ℕ) (label : Label) (db : Database) (env : List Row) →
        SameRows (meaning input db env) (meaning other db env) →
        SameRows (meaning (Base input places label) db env) (meaning other db env) }
    ensures filter { (input other : Query) (condition test : Expr) (subs others : List Sublink)
        (db : Database)
        (env : List Row) → SameExpr condition test →
        SameRows (meaning input db env) (meaning other db env) →
        ((us : Bag) (u : Row) → meaning input db env ≡ Good us → IsTrue (member u us) →
        SubsAgree db env u subs others) →
        SameRows (meaning (Filter input condition subs) db env)
        (meaning (Filter other test others) db env) }
    ensures project { (input other : Query) (items columns : List Item) (subs others : List Sublink)
        (db : Database) (env : List Row) → SameItems items columns →
        SameRows (meaning input db env) (meaning other db env) →
        ((us : Bag) (u : Row) → meaning input db env ≡ Good us → IsTrue (member u us) →
        SubsAgree db env u subs others) →
        SameRows (meaning (Project input items subs) db env) (meaning (Project other columns others) db env) }
    ensures join { (kind : JoinKind) (left right other another : Query) (condition test : Expr)
        (subs others : List Sublink) (db : Database) (env : List Row) → SameExpr condition test →
        SameRows (meaning left db env) (meaning other db env) →
        SameRows (meaning right db env) (meaning another db env) →
        width_of left ≡ width_of other → width_of right ≡ width_of another →
        ((us vs : Bag) (u v : Row) → meaning left db env ≡ Good us → meaning right db env ≡ Good vs →
        IsTrue (member u us) → IsTrue (member v vs) → SubsAgree db env (u ++ v) subs others) →
        SameRows (meaning (Join kind left right condition subs) db env)
        (meaning (Join kind other another test others) db env) }
    ensures apply { (kind : JoinKind) (left right other another : Query) (db : Database) (env : List Row) →
        SameRows (meaning left db env) (meaning other db env) → width_of right ≡ width_of another →
        ((us : Bag) (u : Row) → meaning left db env ≡ Good us → IsTrue (member u us) →
        SameRows (meaning right db (u ∷ env)) (meaning another db (u ∷ env))) →
        SameRows (meaning (Apply kind left right) db env) (meaning (Apply kind other another) db env) }
    ensures union_of { (all : Bool) (left right other another : Query) (db : Database) (env : List Row) →
        SameRows (meaning left db env) (meaning other db env) →
        SameRows (meaning right db env) (meaning another db env) →
        SameRows (meaning (Union all left right) db env) (meaning (Union all other another) db env) }
    ensures intersect { (all : Bool) (left right other another : Query) (db : Database) (env : List Row) →
        SameRows (meaning left db env) (meaning other db env) →
        SameRows (meaning right db env) (meaning another db env) →
        SameRows (meaning (Intersect all left right) db env) (meaning (Intersect all other another) db env) }
    ensures except { (all : Bool) (left right other another : Query) (db : Database) (env : List Row) →
        SameRows (meaning left db env) (meaning other db env) →
        SameRows (meaning right db env) (meaning another db env) →
        SameRows (meaning (Except all left right) db env) (meaning (Except all other another) db env) }
    ensures distinct { (input other : Query) (db : Database) (env : List Row) →
        SameRows (meaning input db env) (meaning other db env) →
        SameRows (meaning (Distinct input) db env) (meaning (Distinct other) db env) }
    ensures aggregate { (input other : Query) (groups : List ℕ) (aggregates others : List Aggr)
        (db : Database)
        (env : List Row) → SameAggregates aggregates others →
        SameRows (meaning input db env) (meaning other db env) →
        SameRows (meaning (Aggregate input groups aggregates) db env)
        (meaning (Aggregate other groups others) db env) }
    ensures limit { (input other : Query) (keys : List Key) (most : ℕ) (db : Database) (env : List Row) →
        SameRows (meaning input db env) (meaning other db env) →
        SameRows (meaning (Limit input keys most) db env) (meaning (Limit other keys most) db env) }
{}

/// What stands for a node's inputs and for its sublinks' queries gives, with expressions that are the same, a node that stands
/// for it; what stands for the input of a source stands for the source.
pub fn nodes_over_what_stands_stand()
    ensures base { (q b : Query) (places : List ℕ) (label : Label) → Stands q b →
        Stands (Base q places label) b }
    ensures filter { (q b : Query) (condition test : Expr) (subs others : List Sublink) →
        SameExpr condition test → Stands q b → SubsStand subs others →
        Stands (Filter q condition subs) (Filter b test others) }
    ensures project { (q b : Query) (items columns : List Item) (subs others : List Sublink) →
        SameItems items columns → Stands q b → SubsStand subs others →
        Stands (Project q items subs) (Project b columns others) }
    ensures join { (kind : JoinKind) (q b r d : Query) (condition test : Expr) (subs others : List Sublink) →
        SameExpr condition test → Stands q b → Stands r d → SubsStand subs others →
        Stands (Join kind q r condition subs) (Join kind b d test others) }
    ensures apply { (kind : JoinKind) (q b r d : Query) → Stands q b → Stands r d →
        Stands (Apply kind q r) (Apply kind b d) }
    ensures union_of { (all : Bool) (q b r d : Query) → Stands q b → Stands r d →
        Stands (Union all q r) (Union all b d) }
    ensures intersect { (all : Bool) (q b r d : Query) → Stands q b → Stands r d →
        Stands (Intersect all q r) (Intersect all b d) }
    ensures except { (all : Bool) (q b r d : Query) → Stands q b → Stands r d →
        Stands (Except all q r) (Except all b d) }
    ensures distinct { (q b : Query) → Stands q b → Stands (Distinct q) (Distinct b) }
    ensures aggregate { (q b : Query) (groups : List ℕ) (aggregates others : List Aggr) →
        SameAggregates aggregates others → Stands q b →
        Stands (Aggregate q groups aggregates) (Aggregate b groups others) }
    ensures limit { (q b : Query) (keys : List Key) (most : ℕ) → Stands q b →
        Stands (Limit q keys most) (Limit b keys most) }
{}
