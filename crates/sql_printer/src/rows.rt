//! What the text of a query is read as, and that it means the same.
//! Each law is the contract of a function that does nothing.
ghost use Rattle.std.specs.Prelude.{◌≡◌, ℕ, List, [], ◌∷◌};
ghost use Rattle.perm_values.specs.declared.kind.Kind.{Kind};
ghost use Rattle.perm_values.specs.declared.value.Value.{Value};
ghost use Rattle.bag_algebra.specs.Bags.{Row};
ghost use Rattle.bag_algebra.specs.Expressions.{value};
ghost use Rattle.bag_algebra.specs.Kinds.{kinds_of};
ghost use Rattle.bag_algebra.specs.Meaning.{Database, meaning};
ghost use Rattle.bag_algebra.specs.TablesRead.{EachTable};
ghost use Rattle.bag_algebra.specs.WellFormed.{HasKind, WellFormed};
ghost use Rattle.bag_algebra.specs.declared.expr.Expr.{Expr};
ghost use Rattle.bag_algebra.specs.declared.query.Query.{Query};
ghost use Rattle.sql_printer.specs.rows.Carried.{Answered, Carries, IsGiven};
ghost use Rattle.sql_printer.specs.rows.Printed.{printed_answer};
ghost use Rattle.sql_printer.specs.rows.PrintedExpressions.{asked_in, beside, printed_expr};
ghost use Rattle.sql_printer.specs.rows.Writable.{Writable, WritableQuery};

/// What the text of an expression is read as has the value of the expression, where the rows carry
/// the columns of its rows and its sublinks have their answers in the order in which it uses them.
pub fn an_expression_is_read_with_its_value()
    ensures { (scopes : List (List Kind)) (subs : List Kind) (unread : List ℕ) (u v : Row)
        (env other : List Row) → Carries scopes unread (u ∷ env) (v ∷ other)
        → (given read : List Value) (e : Expr) (kind : Kind) (n : ℕ) → HasKind scopes subs e kind
        → Writable e → Answered read given n (asked_in e)
        → value (printed_expr unread n e) v other read ≡ value e u env given }
{}

/// An expression has its value also where sublinks that it doesn't use stand beside it.
pub fn unused_sublinks_leave_the_value()
    ensures { (u : Row) (env : List Row) (answers : List Value) (kind : Kind) (count : ℕ) (e : Expr)
        → value (beside kind count e) u env answers ≡ value e u env answers }
{}

/// What the text of a query with columns is read as has the query's rows, in their order, or the
/// same faults, where what its tables' names stand for has the tables' rows.
pub fn an_answer_is_read_with_its_rows()
    ensures { (source : ℕ → List Kind → Query) (db : Database) (q : Query) (kind : Kind)
        (more : List Kind) → kinds_of q ≡ kind ∷ more → WellFormed [] q → WritableQuery q
        → EachTable (IsGiven source db) q
        → meaning (printed_answer source q) db [] ≡ meaning q db [] }
{}
