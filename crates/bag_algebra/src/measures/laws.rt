//! Laws of the tests of queries: each is the contract of a function that does nothing.
ghost use Rattle.std.specs.Prelude.{◌≡◌, ◌++◌, IsTrue, List, length};
ghost use Rattle.bag_algebra.specs.Bags.{Row};
ghost use Rattle.bag_algebra.specs.Closed.{reads_within};
ghost use Rattle.bag_algebra.specs.Expressions.{value};
ghost use Rattle.bag_algebra.specs.FaultFree.{faultless, fault_free};
ghost use Rattle.bag_algebra.specs.Meaning.{Database, meaning};
ghost use Rattle.bag_algebra.specs.Outcome.{is_good};
ghost use Rattle.bag_algebra.specs.WellFormed.{HasKind, WellFormed};
ghost use Rattle.bag_algebra.specs.declared.expr.Expr.{Expr};
ghost use Rattle.bag_algebra.specs.declared.query.Query.{Query};
ghost use Rattle.perm_values.specs.declared.kind.Kind.{Kind};
ghost use Rattle.perm_values.specs.declared.value.Value.{Value};

/// A query that holds nothing that may fault meets no fault, on any database and under any outer rows.
pub fn fault_free_queries_meet_no_fault()
    ensures { (q : Query) (db : Database) (env : List Row) →
        IsTrue (fault_free q) → IsTrue (is_good (meaning q db env)) }
{}

/// An expression that holds no chain and no negation of a number has a good value on every row, whatever its sublinks are.
pub fn faultless_expressions_meet_no_fault()
    ensures { (e : Expr) (u : Row) (env : List Row) (subs : List Value) →
        IsTrue (faultless e) → IsTrue (is_good (value e u env subs)) }
{}

/// An expression has one kind at most in given scopes, beside sublinks of given kinds.
pub fn expressions_have_one_kind()
    ensures { (scopes : List (List Kind)) (subs : List Kind) (e : Expr) (k l : Kind) →
        HasKind scopes subs e k → HasKind scopes subs e l → k ≡ l }
{}

/// An expression reads no sublink behind those with whose kinds it is well formed: values of more of them change nothing.
pub fn more_sublinks_change_nothing()
    ensures { (scopes : List (List Kind)) (kinds : List Kind) (u : Row) (env : List Row)
        (subs more : List Value) →
        length subs ≡ length kinds → (e : Expr) (kind : Kind) → HasKind scopes kinds e kind →
        value e u env (subs ++ more) ≡ value e u env subs }
{}

/// A query that is well formed under so many outer rows reads no others.
pub fn well_formed_queries_read_their_outer_rows_alone()
    ensures { (outer : List (List Kind)) (q : Query) → WellFormed outer q
        → IsTrue (reads_within q (length outer)) }
{}
