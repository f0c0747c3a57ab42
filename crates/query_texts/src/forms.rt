//! Queries of the algebra as they are printed: which form each has, and that this is what is written.
//! Each law is the contract of a function that does nothing.
ghost use Rattle.std.specs.Prelude.{◌≡◌, ℕ, List};
ghost use Rattle.perm_values.specs.declared.key.Key.{Key};
ghost use Rattle.bag_algebra.specs.declared.query.Query.{Query};
ghost use Rattle.tree_texts.specs.Texts.{query_text};
ghost use Rattle.query_texts.specs.forms.ShownQueries.{shown_answer};
ghost use Rattle.query_texts.specs.QueryTexts.{answer_bytes};
ghost use Rattle.query_texts.specs.declared.clauses.tables.TableNames.{TableNames};

/// What is written of a query is the text of its form.
pub fn a_query_is_written_as_its_form()
    ensures { (tables : List TableNames) (q : Query) (names : List (List ℕ)) (keys : List Key)
        → answer_bytes tables q names keys ≡ query_text (shown_answer tables q names keys) }
{}
