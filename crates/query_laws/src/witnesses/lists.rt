//! The lists of a row, node by node: w is a witness list of t exactly where t is in the node's answer and w is as said.
ghost use Rattle.std.specs.Prelude.{◌≡◌, ◌↔◌, ℕ, Bool, List, [], ◌∷◌, Contains};
ghost use Rattle.perm_values.specs.Rows.{picked};
ghost use Rattle.perm_values.specs.declared.key.Key.{Key};
ghost use Rattle.perm_values.specs.declared.kind.Kind.{Kind};
ghost use Rattle.bag_algebra.specs.Bags.{Row};
ghost use Rattle.bag_algebra.specs.Meaning.{Database, witnesses};
ghost use Rattle.bag_algebra.specs.Means.{Witness, Held};
ghost use Rattle.bag_algebra.specs.declared.expr.Expr.{Expr};
ghost use Rattle.bag_algebra.specs.declared.expr.Item.{Item};
ghost use Rattle.bag_algebra.specs.declared.query.Aggr.{Aggr};
ghost use Rattle.bag_algebra.specs.declared.query.JoinKind.{JoinKind};
ghost use Rattle.bag_algebra.specs.declared.query.Label.{Label};
ghost use Rattle.bag_algebra.specs.declared.query.Query.{Query};
ghost use Rattle.bag_algebra.specs.declared.query.Query.TheVariants.{Table, Single, Base, Filter, Project, Join, Apply, Union, Intersect, Except, Distinct, Aggregate, Limit, Prov};
ghost use Rattle.bag_algebra.specs.declared.query.Sublink.{Sublink};
ghost use Rattle.query_laws.specs.ListsOfNodes.{Followed, ProjectList, JoinList, ApplyList, UnionList, IntersectList, ExceptList, AggregateList};
ghost use Rattle.query_laws.specs.SublinkLists.{InAnswer};

/// The row of a source has the one list that holds it, restricted to the source's places; the rows of a table, of no FROM
/// and of PROVENANCE have the one list without entries.
pub fn sources_list_their_rows()
    ensures table { (db : Database) (env : List Row) (t : Row) (w : Witness) (id : ℕ) (kinds : List Kind) →
        Contains (witnesses (Table id kinds) db env t) w ↔ (InAnswer (Table id kinds) db env t × ([] ≡ w)) }
    ensures single { (db : Database) (env : List Row) (t : Row) (w : Witness) →
        Contains (witnesses Single db env t) w ↔ (InAnswer Single db env t × ([] ≡ w)) }
    ensures base { (db : Database) (env : List Row) (t : Row) (w : Witness) (input : Query) (places : List ℕ)
        (label : Label) →
        Contains (witnesses (Base input places label) db env t) w ↔
        (InAnswer (Base input places label) db env t × (Held (picked places t) ∷ [] ≡ w)) }
    ensures provenance { (db : Database) (env : List Row) (t : Row) (w : Witness) (input : Query) →
        Contains (witnesses (Prov input) db env t) w ↔ (InAnswer (Prov input) db env t × ([] ≡ w)) }
{}

/// A row that a condition keeps has each of its lists in the input, followed by one contribution of each sublink on it; a
/// row that items make has those of each input row of which they make it.
pub fn filter_and_project_add_contributions()
    ensures filter { (db : Database) (env : List Row) (t : Row) (w : Witness) (input : Query)
        (condition : Expr) (subs : List Sublink) →
        Contains (witnesses (Filter input condition subs) db env t) w ↔
        (InAnswer (Filter input condition subs) db env t × Followed input subs db env t w) }
    ensures project { (db : Database) (env : List Row) (t : Row) (w : Witness) (input : Query)
        (items : List Item) (subs : List Sublink) →
        Contains (witnesses (Project input items subs) db env t) w ↔
        (InAnswer (Project input items subs) db env t × ProjectList input items subs db env t w) }
{}

/// A pair that meets the condition has each list of its left row beside each of its right row, followed by one contribution
/// of each sublink; an unmatched row of a kept side has its own lists, with nothing at the other places.
pub fn join_lists_pairs_and_unmatched_rows()
    ensures { (db : Database) (env : List Row) (t : Row) (w : Witness) (kind : JoinKind) (left right : Query)
        (condition : Expr) (subs : List Sublink) →
        Contains (witnesses (Join kind left right condition subs) db env t) w ↔
        (InAnswer (Join kind left right condition subs) db env t ×
        JoinList kind left right condition subs db env t w) }
{}

/// A left row beside a right row under it has each list of the one beside each of the other; a left row that stands beside
/// NULLs has its own lists, with nothing at the other places.
pub fn dependent_join_lists_rows_under_left_rows()
    ensures { (db : Database) (env : List Row) (t : Row) (w : Witness) (kind : JoinKind) (left right : Query)
        →
        Contains (witnesses (Apply kind left right) db env t) w ↔
        (InAnswer (Apply kind left right) db env t × ApplyList kind left right db env t w) }
{}

/// UNION has the lists of either side with nothing at the other's places; INTERSECT each left list beside each right
/// list; EXCEPT each left list beside each list of each right row that differs, or beside nothing where none does.
pub fn set_operations_combine_lists()
    ensures union { (db : Database) (env : List Row) (t : Row) (w : Witness) (all : Bool)
        (left right : Query) →
        Contains (witnesses (Union all left right) db env t) w ↔
        (InAnswer (Union all left right) db env t × UnionList left right db env t w) }
    ensures intersect { (db : Database) (env : List Row) (t : Row) (w : Witness) (all : Bool)
        (left right : Query) →
        Contains (witnesses (Intersect all left right) db env t) w ↔
        (InAnswer (Intersect all left right) db env t × IntersectList left right db env t w) }
    ensures except { (db : Database) (env : List Row) (t : Row) (w : Witness) (all : Bool)
        (left right : Query) →
        Contains (witnesses (Except all left right) db env t) w ↔
        (InAnswer (Except all left right) db env t × ExceptList left right db env t w) }
{}

/// A row has every list of every input row with its group values, whatever the aggregates; nothing at all places where the
/// input has no row.
pub fn aggregate_lists_its_class()
    ensures { (db : Database) (env : List Row) (t : Row) (w : Witness) (input : Query) (groups : List ℕ)
        (aggregates : List Aggr) →
        Contains (witnesses (Aggregate input groups aggregates) db env t) w ↔
        (InAnswer (Aggregate input groups aggregates) db env t × AggregateList input groups db env t w) }
{}

/// A row has the lists that it has in the input.
pub fn distinct_and_limit_keep_lists()
    ensures distinct { (db : Database) (env : List Row) (t : Row) (w : Witness) (input : Query) →
        Contains (witnesses (Distinct input) db env t) w ↔
        (InAnswer (Distinct input) db env t × Contains (witnesses input db env t) w) }
    ensures limit { (db : Database) (env : List Row) (t : Row) (w : Witness) (input : Query) (keys : List Key)
        (count : ℕ) →
        Contains (witnesses (Limit input keys count) db env t) w ↔
        (InAnswer (Limit input keys count) db env t × Contains (witnesses input db env t) w) }
{}
