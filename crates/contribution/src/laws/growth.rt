//! A query rests on the columns that its outer kinds name, and on nothing else of the outer rows.
ghost use Rattle.perm_values.specs.declared.kind.Kind.{Kind};
ghost use Rattle.perm_values.specs.declared.kind.Kind.TheVariants.{Boolean};
ghost use Rattle.perm_values.specs.declared.value.Value.{Value};
ghost use Rattle.std.specs.Prelude.{◌≡◌, List, [], ◌∷◌, ◌++◌, IsTrue};
ghost use Rattle.bag_algebra.specs.Bags.{Row};
ghost use Rattle.bag_algebra.specs.built.Openings.{row_of_subs};
ghost use Rattle.bag_algebra.specs.Children.{subs_denote};
ghost use Rattle.bag_algebra.specs.Expressions.{value};
ghost use Rattle.bag_algebra.specs.Fits.{row_begins, env_fits};
ghost use Rattle.bag_algebra.specs.Meaning.{Database, denote, condition_on, items_on};
ghost use Rattle.bag_algebra.specs.WellFormed.{HasKind, ItemsForm, WellFormed, SubsForm};
ghost use Rattle.bag_algebra.specs.declared.expr.Expr.{Expr};
ghost use Rattle.bag_algebra.specs.declared.expr.Item.{Item};
ghost use Rattle.bag_algebra.specs.declared.query.Query.{Query};
ghost use Rattle.bag_algebra.specs.declared.query.Sublink.{Sublink};
ghost use Rattle.contribution.specs.Longer.{Longer};
ghost use Rattle.contribution.specs.SameColumns.{SameColumns};

/// What is well formed under some outer kinds is well formed under longer ones, and outer rows that fit the longer ones
/// fit those.
pub fn longer_outer_kinds_serve_too()
    ensures expressions { (scopes longer : List (List Kind)) (subs : List Kind) (e : Expr) (kind : Kind) →
        Longer scopes longer → HasKind scopes subs e kind → HasKind longer subs e kind }
    ensures queries { (outer longer : List (List Kind)) (q : Query) →
        Longer outer longer → WellFormed outer q → WellFormed longer q }
    ensures outer_rows { (outer longer : List (List Kind)) (env : List Row) →
        Longer outer longer → IsTrue (env_fits env longer) → IsTrue (env_fits env outer) }
{}

/// Under outer rows that agree on the columns that its outer kinds name, a query has one meaning and the same witness
/// lists; and so an expression has one value, where its own row may differ elsewhere too.
pub fn meaning_rests_on_named_columns()
    ensures expressions { (scopes : List (List Kind)) (subs : List Kind) (e : Expr) (kind : Kind) (u v : Row)
        (env other : List Row) (answers : List Value) →
        HasKind scopes subs e kind → SameColumns scopes (u ∷ env) (v ∷ other) →
        value e u env answers ≡ value e v other answers }
    ensures queries { (outer : List (List Kind)) (q : Query) (db : Database) (env other : List Row) →
        WellFormed outer q → SameColumns outer env other → denote q db env ≡ denote q db other }
{}

/// Values added at the end of outer rows, and rows added behind them, change nothing of what a query means.
pub fn values_added_to_outer_rows_change_nothing()
    ensures meaning { (outer : List (List Kind)) (q : Query) (db : Database) (env other : List Row) →
        WellFormed outer q → IsTrue (env_fits env outer) → Longer env other →
        denote q db env ≡ denote q db other }
    ensures columns { (outer : List (List Kind)) (env other : List Row) →
        IsTrue (env_fits env outer) → Longer env other → SameColumns outer env other }
    ensures fitting { (outer : List (List Kind)) (env other : List Row) →
        IsTrue (env_fits env outer) → Longer env other → IsTrue (env_fits other outer) }
{}

/// On rows that agree on the columns that the scopes name, as a row and a longer one that begins with it, a node's
/// sublinks have the same values and contributions, and its condition and items come to the same.
pub fn columns_added_to_a_row_change_nothing()
    ensures columns { (kinds : List Kind) (outer : List (List Kind)) (u more : Row) (env : List Row) →
        IsTrue (row_begins u kinds) → SameColumns (kinds ∷ outer) (u ∷ env) ((u ++ more) ∷ env) }
    ensures sublinks { (scopes : List (List Kind)) (subs : List Sublink) (db : Database) (u v : Row)
        (env other : List Row) →
        SubsForm scopes (row_of_subs subs) → SameColumns scopes (u ∷ env) (v ∷ other) →
        ((subs_denote subs db env).answers u ≡ (subs_denote subs db other).answers v) ×
        ((subs_denote subs db env).contributions u ≡ (subs_denote subs db other).contributions v) }
    ensures condition { (scopes : List (List Kind)) (subs : List Sublink) (db : Database) (u v : Row)
        (env other : List Row) (condition : Expr) (sub_kinds : List Kind) →
        SubsForm scopes (row_of_subs subs) → HasKind scopes sub_kinds condition Boolean →
        SameColumns scopes (u ∷ env) (v ∷ other) →
        condition_on condition env (subs_denote subs db env) u ≡
        condition_on condition other (subs_denote subs db other) v }
    ensures items { (scopes : List (List Kind)) (subs : List Sublink) (db : Database) (u v : Row)
        (env other : List Row) (items : List Item) (sub_kinds : List Kind) →
        SubsForm scopes (row_of_subs subs) → ItemsForm scopes sub_kinds items →
        SameColumns scopes (u ∷ env) (v ∷ other) →
        items_on items env (subs_denote subs db env) u ≡ items_on items other (subs_denote subs db other) v }
{}

/// A query that is well formed without outer kinds means the same under all outer rows.
pub fn closed_queries_see_no_outer_row()
    ensures { (q : Query) (db : Database) (env other : List Row) → WellFormed [] q →
        denote q db env ≡ denote q db other }
{}
