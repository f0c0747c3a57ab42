//! The law of each node: the contract of a function that does nothing.
ghost use Rattle.std.specs.Prelude.{◌≡◌, ◌≢◌, ◌↔◌, ℕ, pos, ◌+◌, ◌-◌, min, Bool, cond, not, List, [], ◌∷◌, map, length, count_by, IsTrue, IsFalse};
ghost use Rattle.null_logic.specs.Arithmetic.{fits_64};
ghost use Rattle.null_logic.specs.declared.run_fault.RunFault.TheVariants.{OutOfRange};
ghost use Rattle.null_logic.specs.declared.run_fault.RunFault.{RunFault};
ghost use Rattle.perm_values.specs.Rows.{same_row, picked};
ghost use Rattle.perm_values.specs.Values.{is_null};
ghost use Rattle.perm_values.specs.declared.key.Key.{Key};
ghost use Rattle.perm_values.specs.declared.kind.Kind.{Kind};
ghost use Rattle.perm_values.specs.declared.value.Value.TheVariants.{Null, Integer};
ghost use Rattle.perm_values.specs.declared.value.Value.{Value};
ghost use Rattle.bag_algebra.specs.Bags.{Row, Bag, count, member};
ghost use Rattle.bag_algebra.specs.Children.{subs_denote};
ghost use Rattle.bag_algebra.specs.Expressions.{value};
ghost use Rattle.bag_algebra.specs.Kinds.{width_of};
ghost use Rattle.bag_algebra.specs.Meaning.{Database, meaning, witnesses, condition_on, items_on, arguments_on};
ghost use Rattle.bag_algebra.specs.Means.{Witness, present, total, aggregated, class_of};
ghost use Rattle.bag_algebra.specs.Outcome.{Outcome, Good, Bad, Faults, only, has};
ghost use Rattle.bag_algebra.specs.declared.expr.Expr.{Expr};
ghost use Rattle.bag_algebra.specs.declared.expr.Item.{Item};
ghost use Rattle.bag_algebra.specs.declared.query.AggFn.TheVariants.{CountRows, Count, CountDistinct, Sum, Min, Max};
ghost use Rattle.bag_algebra.specs.declared.query.AggFn.{AggFn};
ghost use Rattle.bag_algebra.specs.declared.query.Aggr.{Aggr};
ghost use Rattle.bag_algebra.specs.declared.query.JoinKind.{JoinKind};
ghost use Rattle.bag_algebra.specs.declared.query.Label.{Label};
ghost use Rattle.bag_algebra.specs.declared.query.Query.TheVariants.{Table, Single, Base, Filter, Project, Join, Apply, Union, Intersect, Except, Distinct, Aggregate, Limit, Prov};
ghost use Rattle.bag_algebra.specs.declared.query.Query.{Query};
ghost use Rattle.bag_algebra.specs.declared.query.Sublink.{Sublink};
ghost use Rattle.query_laws.specs.Aggregated.{occurrences, ListsValues, IsLeast, IsGreatest};
ghost use Rattle.bag_algebra.specs.Rewriting.{SameRows};
ghost use Rattle.query_laws.specs.Holding.{InBag, Lists};
ghost use Rattle.query_laws.specs.Nodes.{IsFiltered, IsProjected, IsJoinOf, IsApplied, IsCombined, in_either, in_both, in_left_alone, IsDistinct, IsGrouped, IsLimited, IsProvenance};

/// A table has the rows that the database has for it.
pub fn table_has_its_rows()
    ensures { (id : ℕ) (kinds : List Kind) (db : Database) (env : List Row) →
        meaning (Table id kinds) db env ≡ Good (db id) }
{}

/// The source of a query without FROM has the empty row, once.
pub fn single_has_the_empty_row()
    ensures { (db : Database) (env : List Row) → meaning Single db env ≡ Good ([] ∷ []) }
{}

/// A source has the rows and faults of its input.
pub fn base_has_its_inputs_rows()
    ensures { (input : Query) (places : List ℕ) (label : Label) (db : Database) (env : List Row) →
        meaning (Base input places label) db env ≡ meaning input db env }
{}

/// A row has its count in the input where its condition, after its sublinks, is true, and otherwise none. What the
/// rows meet is met.
pub fn filter_keeps_what_is_true()
    ensures { (input : Query) (condition : Expr) (subs : List Sublink) (db : Database) (env : List Row) →
        IsFiltered (condition_on condition env (subs_denote subs db env)) (meaning input db env)
        (meaning (Filter input condition subs) db env) }
{}

/// A row has the sum of the counts of those input rows whose items, after their sublinks, give it. What the rows meet
/// is met.
pub fn project_adds_counts()
    ensures { (input : Query) (items : List Item) (subs : List Sublink) (db : Database) (env : List Row) →
        IsProjected (items_on items env (subs_denote subs db env)) (meaning input db env)
        (meaning (Project input items subs) db env) }
{}

/// A row has the sum, over the pairs that make it and whose condition is true, of the products of their counts, and the
/// counts of the unmatched rows of a kept side that make it beside NULLs. What the pairs meet is met.
pub fn join_multiplies_counts()
    ensures { (kind : JoinKind) (left right : Query) (condition : Expr) (subs : List Sublink) (db : Database)
        (env : List Row) →
        IsJoinOf kind (condition_on condition env (subs_denote subs db env)) (width_of left) (width_of right)
        (meaning left db env) (meaning right db env) (meaning (Join kind left right condition subs) db env) }
{}

/// A row has the sum, over the left rows, of their counts times how often it stands beside them: as often as a right row
/// under the left row makes it; or once, made of NULLs, where there is none and the kind keeps left rows. What the right
/// side meets under the left rows is met.
pub fn dependent_join_multiplies_counts()
    ensures { (kind : JoinKind) (left right : Query) (db : Database) (env : List Row) →
        IsApplied kind (width_of left) (width_of right) (meaning left db env)
        (λ u. meaning right db (u ∷ env)) (meaning (Apply kind left right) db env) }
{}

/// UNION ALL gives the sum of the counts, UNION each row of either side once.
pub fn union_adds_counts()
    ensures { (all : Bool) (left right : Query) (db : Database) (env : List Row) →
        IsCombined ◌+◌ in_either all (meaning left db env) (meaning right db env)
        (meaning (Union all left right) db env) }
{}

/// INTERSECT ALL gives the smaller of the counts, INTERSECT each row of both sides once.
pub fn intersect_has_the_smaller_count()
    ensures { (all : Bool) (left right : Query) (db : Database) (env : List Row) →
        IsCombined min in_both all (meaning left db env) (meaning right db env)
        (meaning (Intersect all left right) db env) }
{}

/// EXCEPT ALL gives what the left count has beyond the right one, EXCEPT each row of the left side alone once.
pub fn except_takes_counts_away()
    ensures { (all : Bool) (left right : Query) (db : Database) (env : List Row) →
        IsCombined ◌-◌ in_left_alone all (meaning left db env) (meaning right db env)
        (meaning (Except all left right) db env) }
{}

/// DISTINCT gives each row of the input once.
pub fn distinct_has_each_row_once()
    ensures { (input : Query) (db : Database) (env : List Row) →
        IsDistinct (meaning input db env) (meaning (Distinct input) db env) }
{}

/// One row for each class of input rows whose group values are the same: the group values, then the aggregates over the
/// class. Without groups exactly one row. A bad argument on a row is met, and otherwise a sum that doesn't fit.
pub fn aggregate_has_a_row_for_each_class()
    ensures { (input : Query) (groups : List ℕ) (aggregates : List Aggr) (db : Database) (env : List Row) →
        IsGrouped groups (map (λ (aggregate : Aggr). aggregate.function) aggregates)
        (arguments_on aggregates env) (meaning input db env)
        (meaning (Aggregate input groups aggregates) db env) }
{}

/// LIMIT gives the first rows of the input in the printed order.
pub fn limit_takes_the_first_rows()
    ensures { (input : Query) (keys : List Key) (most : ℕ) (db : Database) (env : List Row) →
        IsLimited keys most (meaning input db env) (meaning (Limit input keys most) db env) }
{}

/// PROVENANCE gives each row of the query beside each of its witness lists, once each.
pub fn provenance_is_each_row_beside_its_witnesses()
    ensures { (input : Query) (db : Database) (env : List Row) →
        IsProvenance (witnesses input db env) (meaning input db env) (meaning (Prov input) db env) }
{}

/// Each row of a bag is in the class of its own group values alone, and there as often as in the bag.
pub fn every_row_is_in_one_class()
    ensures { (groups : List ℕ) (us : Bag) (key u : Row) →
        count u (class_of groups key us) ≡ cond (same_row (picked groups u) key) (count u us) 0 }
{}

/// A row is in a bag, by its count, exactly where it is the same as a row that the list has.
pub fn what_counts_is_a_member()
    ensures { (t : Row) (us : Bag) → InBag t us ↔ IsTrue (member t us) }
{}

/// Every bag has a list of its rows, each once, to sum over.
pub fn every_bag_can_be_listed()
    ensures { (us : Bag) → (rows : List Row) × Lists rows us }
{}

/// Each law above sees bags and fixes its node's answer: for inputs that are the same, bad with one set of faults or good
/// with one bag, whatever keeps the law is the same.
pub fn laws_leave_no_choice()
    ensures filter { (condition : Row → Outcome Value) (input other a b : Outcome Bag) →
        SameRows input other → IsFiltered condition input a → IsFiltered condition other b → SameRows a b }
    ensures project { (items : Row → Outcome Row) (input other a b : Outcome Bag) →
        SameRows input other → IsProjected items input a → IsProjected items other b → SameRows a b }
    ensures join { (kind : JoinKind) (condition : Row → Outcome Value) (left_width right_width : ℕ)
        (left right other another a b : Outcome Bag) →
        SameRows left other → SameRows right another →
        IsJoinOf kind condition left_width right_width left right a →
        IsJoinOf kind condition left_width right_width other another b → SameRows a b }
    ensures apply { (kind : JoinKind) (left_width right_width : ℕ) (left other a b : Outcome Bag)
        (right another : Row → Outcome Bag) →
        SameRows left other →
        ((us : Bag) (u : Row) → left ≡ Good us → InBag u us → SameRows (right u) (another u)) →
        IsApplied kind left_width right_width left right a →
        IsApplied kind left_width right_width other another b → SameRows a b }
    ensures union_of { (all : Bool) (left right other another a b : Outcome Bag) →
        SameRows left other → SameRows right another → IsCombined ◌+◌ in_either all left right a →
        IsCombined ◌+◌ in_either all other another b → SameRows a b }
    ensures intersect { (all : Bool) (left right other another a b : Outcome Bag) →
        SameRows left other → SameRows right another → IsCombined min in_both all left right a →
        IsCombined min in_both all other another b → SameRows a b }
    ensures except { (all : Bool) (left right other another a b : Outcome Bag) →
        SameRows left other → SameRows right another → IsCombined ◌-◌ in_left_alone all left right a →
        IsCombined ◌-◌ in_left_alone all other another b → SameRows a b }
    ensures distinct { (input other a b : Outcome Bag) →
        SameRows input other → IsDistinct input a → IsDistinct other b → SameRows a b }
    ensures aggregate { (groups : List ℕ) (functions : List AggFn) (arguments : Row → Outcome Row)
        (input other a b : Outcome Bag) →
        SameRows input other → IsGrouped groups functions arguments input a →
        IsGrouped groups functions arguments other b → SameRows a b }
    ensures limit { (keys : List Key) (most : ℕ) (input other a b : Outcome Bag) →
        SameRows input other → IsLimited keys most input a → IsLimited keys most other b → SameRows a b }
    ensures provenance { (lists : Row → List Witness) (input other a b : Outcome Bag) →
        SameRows input other → IsProvenance lists input a → IsProvenance lists other b → SameRows a b }
{}

/// COUNT(*) counts all values, COUNT those that aren't NULL, COUNT DISTINCT each of these once. SUM, MIN and MAX of none
/// are NULL; otherwise SUM is the exact sum and out of range where that doesn't fit, MIN is the first value in order and
/// MAX the last. The order of the values doesn't count.
pub fn aggregates_look_at_what_is_not_null()
    ensures count_rows { (vs : List Value) →
        aggregated CountRows vs ≡ Good (Integer (pos (length vs))) }
    ensures count { (vs : List Value) →
        aggregated Count vs ≡ Good (Integer (pos (count_by (λ v. not (is_null v)) vs))) }
    ensures count_distinct { (vs distinct : List Value) →
        ListsValues distinct vs → aggregated CountDistinct vs ≡ Good (Integer (pos (length distinct))) }
    ensures distinct_values { (vs : List Value) → (distinct : List Value) × ListsValues distinct vs }
    ensures sum_of_none { (vs : List Value) → present vs ≡ [] → aggregated Sum vs ≡ Good Null }
    ensures sum { (vs : List Value) →
        present vs ≢ [] → IsTrue (fits_64 (total (present vs))) →
        aggregated Sum vs ≡ Good (Integer (total (present vs))) }
    ensures sum_out_of_range { (vs : List Value) →
        IsFalse (fits_64 (total (present vs))) → aggregated Sum vs ≡ Bad (only OutOfRange) }
    ensures min_of_none { (vs : List Value) → present vs ≡ [] → aggregated Min vs ≡ Good Null }
    ensures least { (vs : List Value) →
        present vs ≢ [] → (v : Value) × IsLeast v (present vs) × (aggregated Min vs ≡ Good v) }
    ensures max_of_none { (vs : List Value) → present vs ≡ [] → aggregated Max vs ≡ Good Null }
    ensures greatest { (vs : List Value) →
        present vs ≢ [] → (v : Value) × IsGreatest v (present vs) × (aggregated Max vs ≡ Good v) }
    ensures any_order { (function : AggFn) (vs ws : List Value) →
        ((v : Value) → occurrences v vs ≡ occurrences v ws) →
        aggregated function vs ≡ aggregated function ws }
{}

/// What is bad meets a fault: the set is never empty.
pub fn what_is_bad_meets_a_fault()
    ensures expressions { (e : Expr) (u : Row) (env : List Row) (answers : List Value) (faults : Faults) →
        value e u env answers ≡ Bad faults → (fault : RunFault) × IsTrue (has faults fault) }
    ensures queries { (q : Query) (db : Database) (env : List Row) (faults : Faults) →
        meaning q db env ≡ Bad faults → (fault : RunFault) × IsTrue (has faults fault) }
{}
