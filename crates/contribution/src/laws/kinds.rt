//! Values, rows and witness lists have the kinds that the query says.
ghost use Rattle.perm_values.specs.Rows.{row_fits};
ghost use Rattle.perm_values.specs.Values.{fits};
ghost use Rattle.perm_values.specs.declared.kind.Kind.{Kind};
ghost use Rattle.perm_values.specs.declared.value.Value.{Value};
ghost use Rattle.std.specs.Prelude.{◌≡◌, List, ◌∷◌, length, All, Contains, IsTrue};
ghost use Rattle.bag_algebra.specs.Bags.{Row, Bag};
ghost use Rattle.bag_algebra.specs.Expressions.{value};
ghost use Rattle.bag_algebra.specs.Fits.{bag_fits, env_fits};
ghost use Rattle.bag_algebra.specs.Kinds.{kinds_of, shape, width_of};
ghost use Rattle.bag_algebra.specs.Meaning.{Database, meaning, witnesses};
ghost use Rattle.bag_algebra.specs.Means.{Witness};
ghost use Rattle.bag_algebra.specs.Outcome.{Good};
ghost use Rattle.bag_algebra.specs.WellFormed.{HasKind};
ghost use Rattle.bag_algebra.specs.declared.expr.Expr.{Expr};
ghost use Rattle.bag_algebra.specs.declared.query.Query.{Query};
ghost use Rattle.contribution.specs.Fitting.{Fitting};
ghost use Rattle.contribution.specs.FitsPlaces.{FitsPlaces};

/// The good value of a well formed expression fits its kind, on a row and outer rows that fit its scopes, with values
/// of the node's sublinks that fit theirs.
pub fn values_have_their_kinds()
    ensures { (scopes : List (List Kind)) (subs : List Kind) (e : Expr) (kind : Kind) (u : Row)
        (env : List Row) (answers : List Value) (v : Value) →
        HasKind scopes subs e kind → IsTrue (env_fits (u ∷ env) scopes) → IsTrue (row_fits answers subs) →
        value e u env answers ≡ Good v → IsTrue (fits v kind) }
{}

/// Each row of a good answer has one value for each column of the query, which fits the column's kind; and each witness
/// list has one entry for each place of the query, a row of the place's kinds or nothing of its width.
pub fn rows_have_the_kinds()
    ensures kinds { (outer : List (List Kind)) (q : Query) (db : Database) (env : List Row) (bag : Bag) →
        Fitting outer q db env → meaning q db env ≡ Good bag → IsTrue (bag_fits bag (kinds_of q)) }
    ensures width { (outer : List (List Kind)) (q : Query) (db : Database) (env : List Row) (bag : Bag) →
        Fitting outer q db env → meaning q db env ≡ Good bag → All (λ row. length row ≡ width_of q) bag }
    ensures lists { (outer : List (List Kind)) (q : Query) (db : Database) (env : List Row) (t : Row)
        (w : Witness) →
        Fitting outer q db env → Contains (witnesses q db env t) w → FitsPlaces (shape q) w }
{}
