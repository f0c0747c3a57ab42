//! That the text of an expression is read as what it was printed for.
//! Each law is the contract of a function that does nothing.
ghost use Rattle.std.specs.Prelude.{◌≡◌, ℕ, false, List};
ghost use Rattle.perm_values.specs.declared.kind.Kind.{Kind};
ghost use Rattle.bag_algebra.specs.WellFormed.{HasKind};
ghost use Rattle.bag_algebra.specs.declared.expr.Expr.{Expr};
ghost use Rattle.bag_algebra.specs.declared.query.Sublink.{Sublink};
ghost use Rattle.perm_catalog.specs.Contents.{Contents};
ghost use Rattle.sql_tree.specs.declared.expression.ExprTree.{ExprTree};
ghost use Rattle.name_meaning.specs.Meanings.{Surroundings};
ghost use Rattle.name_meaning.specs.Trees.{part_of};
ghost use Rattle.name_meaning.specs.declared.scope.Scope.{Scope};
ghost use Rattle.tree_texts.specs.Forms.{ExprForm};
ghost use Rattle.tree_texts.specs.Trees.{IsExpr};
ghost use Rattle.query_texts.specs.forms.ShownExpressions.{shown_expr};
ghost use Rattle.sql_printer.specs.rows.Printed.{taken};
ghost use Rattle.sql_printer.specs.rows.PrintedExpressions.{asked_in, printed_expr};
ghost use Rattle.sql_printer.specs.rows.Writable.{Writable};
ghost use Rattle.sql_printer.specs.expressions.Reading.{Finds, FindsSublinks, IsRead};
ghost use Rattle.sql_printer.specs.expressions.Scopes.{ScopesAre, marks};

/// In scopes whose columns are numbered, each column is found by its printed name.
pub fn columns_are_found_by_their_printed_names()
    ensures { (depth : ℕ) (kinds : List (List Kind)) (unread : List ℕ) (scopes : List Scope)
        → ScopesAre depth kinds unread scopes → Finds (marks depth) kinds unread scopes }
{}

/// The tree of an expression's form is read as what is printed of the expression, where its columns
/// and its sublinks are found.
pub fn a_printed_expression_is_read_back()
    ensures { (c : Contents) (prefix : List ℕ) (forms : List ExprForm) (asked : List Sublink)
        (scopes : List (List Kind)) (subs : List Kind) (unread : List ℕ) (here : Surroundings)
        → Finds prefix scopes unread here.scopes → FindsSublinks c here forms asked subs
        → here.argument ≡ false
        → (e : Expr) (kind : Kind) → HasKind scopes subs e kind → Writable e → (tree : ExprTree)
        → IsExpr (shown_expr prefix forms e) tree
        → IsRead ((part_of c tree).means here) kind (λ n. printed_expr unread n e)
        (taken asked (asked_in e)) }
{}
