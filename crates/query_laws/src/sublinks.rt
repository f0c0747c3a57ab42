//! The laws of sublinks and of what is evaluated on a row.
ghost use Rattle.std.specs.Prelude.{◌≡◌, ◌≢◌, ◌<◌, ℕ, true, false, List, length};
ghost use Rattle.null_logic.specs.Comparison.{compare_values};
ghost use Rattle.null_logic.specs.declared.compare.Compare.{Compare};
ghost use Rattle.null_logic.specs.declared.run_fault.RunFault.TheVariants.{SeveralRows};
ghost use Rattle.null_logic.specs.declared.truth.Truth.TheVariants.{True, False, Unknown};
ghost use Rattle.perm_values.specs.declared.value.Value.TheVariants.{Null, Boolean};
ghost use Rattle.perm_values.specs.declared.value.Value.{Value};
ghost use Rattle.bag_algebra.specs.Bags.{Row, Bag};
ghost use Rattle.bag_algebra.specs.Children.{subs_denote, sublink_value};
ghost use Rattle.bag_algebra.specs.Expressions.{value};
ghost use Rattle.bag_algebra.specs.Meaning.{Database, condition_on, items_on, arguments_on, optional_value};
ghost use Rattle.bag_algebra.specs.Means.{sub_value, cell};
ghost use Rattle.bag_algebra.specs.Outcome.{Good, Bad, Faults, only};
ghost use Rattle.bag_algebra.specs.declared.expr.Expr.{Expr};
ghost use Rattle.bag_algebra.specs.declared.expr.Item.{Item};
ghost use Rattle.bag_algebra.specs.declared.query.Aggr.{Aggr};
ghost use Rattle.bag_algebra.specs.declared.query.SubKind.TheVariants.{Exists, Any, All, Scalar};
ghost use Rattle.bag_algebra.specs.declared.query.Sublink.{Sublink};
ghost use Rattle.query_laws.specs.Evaluated.{IsEvaluated};
ghost use Rattle.query_laws.specs.Holding.{InBag};

/// On each row all sublinks are evaluated first, with the row as the nearest outer one. Where one is bad, the row is, with
/// the union of their faults; otherwise the condition decides, or all items are evaluated. An aggregate's arguments have
/// no sublinks.
pub fn sublinks_come_first()
    ensures sublinks { (subs : List Sublink) (db : Database) (env : List Row) (u : Row) →
        IsEvaluated (sublink_value db env u) subs ((subs_denote subs db env).answers u) }
    ensures bad_condition { (condition : Expr) (subs : List Sublink) (db : Database) (env : List Row)
        (u : Row) (faults : Faults) →
        (subs_denote subs db env).answers u ≡ Bad faults →
        condition_on condition env (subs_denote subs db env) u ≡ Bad faults }
    ensures condition { (condition : Expr) (subs : List Sublink) (db : Database) (env : List Row) (u : Row)
        (answers : List Value) →
        (subs_denote subs db env).answers u ≡ Good answers →
        condition_on condition env (subs_denote subs db env) u ≡ value condition u env answers }
    ensures bad_items { (items : List Item) (subs : List Sublink) (db : Database) (env : List Row) (u : Row)
        (faults : Faults) →
        (subs_denote subs db env).answers u ≡ Bad faults →
        items_on items env (subs_denote subs db env) u ≡ Bad faults }
    ensures items { (items : List Item) (subs : List Sublink) (db : Database) (env : List Row) (u : Row)
        (answers : List Value) →
        (subs_denote subs db env).answers u ≡ Good answers →
        IsEvaluated (λ (item : Item). value item.expr u env answers) items
        (items_on items env (subs_denote subs db env) u) }
    ensures arguments { (aggregates : List Aggr) (env : List Row) (u : Row) →
        IsEvaluated (λ (aggregate : Aggr). optional_value aggregate.argument env u) aggregates
        (arguments_on aggregates env u) }
{}

/// EXISTS says whether there is a row. ANY is true where some comparison is, otherwise unknown where some is, otherwise
/// false; ALL is false where some comparison is, otherwise unknown where some is, otherwise true. A scalar sublink is
/// NULL over no row, the column of the one row, and a fault over several, also where they are the same.
pub fn sublinks_have_their_values()
    ensures exists { (x : Value) (bag : Bag) (u : Row) → InBag u bag →
        sub_value Exists x bag ≡ Good (Boolean true) }
    ensures exists_none { (x : Value) (bag : Bag) →
        ((u : Row) → ¬ (InBag u bag)) → sub_value Exists x bag ≡ Good (Boolean false) }
    ensures any_true { (c : Compare) (x : Value) (bag : Bag) (u : Row) →
        InBag u bag → compare_values c x (cell u) ≡ True → sub_value (Any c) x bag ≡ Good (Boolean true) }
    ensures any_unknown { (c : Compare) (x : Value) (bag : Bag) (u : Row) →
        InBag u bag → compare_values c x (cell u) ≡ Unknown →
        ((v : Row) → InBag v bag → compare_values c x (cell v) ≢ True) → sub_value (Any c) x bag ≡ Good Null }
    ensures any_false { (c : Compare) (x : Value) (bag : Bag) →
        ((v : Row) → InBag v bag → compare_values c x (cell v) ≡ False) →
        sub_value (Any c) x bag ≡ Good (Boolean false) }
    ensures all_false { (c : Compare) (x : Value) (bag : Bag) (u : Row) →
        InBag u bag → compare_values c x (cell u) ≡ False → sub_value (All c) x bag ≡ Good (Boolean false) }
    ensures all_unknown { (c : Compare) (x : Value) (bag : Bag) (u : Row) →
        InBag u bag → compare_values c x (cell u) ≡ Unknown →
        ((v : Row) → InBag v bag → compare_values c x (cell v) ≢ False) →
        sub_value (All c) x bag ≡ Good Null }
    ensures all_true { (c : Compare) (x : Value) (bag : Bag) →
        ((v : Row) → InBag v bag → compare_values c x (cell v) ≡ True) →
        sub_value (All c) x bag ≡ Good (Boolean true) }
    ensures scalar_none { (x : Value) (bag : Bag) → length bag ≡ 0 → sub_value Scalar x bag ≡ Good Null }
    ensures scalar_one { (x : Value) (bag : Bag) (u : Row) →
        length bag ≡ 1 → InBag u bag → sub_value Scalar x bag ≡ Good (cell u) }
    ensures scalar_several { (x : Value) (bag : Bag) →
        1 < length bag → sub_value Scalar x bag ≡ Bad (only SeveralRows) }
{}
