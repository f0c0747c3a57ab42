//! That the text of a SELECT without groups is read as what it was printed for.
//! Each law is the contract of a function that does nothing.
ghost use Rattle.std.specs.Prelude.{ℕ, suc, Bool, List, ◌∷◌, length};
ghost use Rattle.perm_values.specs.declared.kind.Kind.{Kind};
ghost use Rattle.bag_algebra.specs.declared.query.Query.{Query};
ghost use Rattle.perm_catalog.specs.Contents.{Contents};
ghost use Rattle.name_meaning.specs.Cores.{distinct_if};
ghost use Rattle.name_meaning.specs.Froms.{in_from};
ghost use Rattle.name_meaning.specs.Meanings.{Around};
ghost use Rattle.tree_texts.specs.Forms.{QueryForm, no_condition};
ghost use Rattle.query_texts.specs.clauses.Names.{naming};
ghost use Rattle.query_texts.specs.forms.ShownQueries.{copied, just};
ghost use Rattle.sql_printer.specs.rows.Printed.{listed};
ghost use Rattle.sql_printer.specs.expressions.Scopes.{Few, ScopesAre, marks};
ghost use Rattle.sql_printer.specs.cores.Queries.{CoreFormRead, FormRead, numbered_names};

/// The SELECT, or SELECT DISTINCT, of all columns of a printed query is read as a copy of what that
/// query is read as.
pub fn a_printed_copy_is_read_back()
    ensures { (c : Contents) (depth : ℕ) (scopes : List (List Kind)) (unread : List ℕ)
        (around : Around) (kind : Kind) (more : List Kind) → Few (kind ∷ more)
        → ScopesAre depth scopes unread around.outer → (form : QueryForm) (q : Query)
        → FormRead c (in_from around.outer) (numbered_names (suc depth) 1 (kind ∷ more))
        (kind ∷ more) form q
        → (distinct : Bool) (out first : ℕ)
        → CoreFormRead c around (numbered_names out first (kind ∷ more)) (kind ∷ more)
        (copied (marks (suc depth)) (length (kind ∷ more)) (just form) no_condition distinct
        (naming (marks out) first))
        (distinct_if distinct (listed (kind ∷ more) 0 q)) }
{}
