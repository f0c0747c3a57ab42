//! Each law is the contract of a function that does nothing.
ghost use Rattle.std.specs.Prelude.{ℕ, List, []};
ghost use Rattle.std.specs.List.{AllByRecursion};
ghost use Rattle.std.specs.Str.{IsUtf8};
ghost use Rattle.perm_values.specs.Rows.{KeysWithin};
ghost use Rattle.perm_values.specs.declared.key.Key.{Key};
ghost use Rattle.bag_algebra.specs.Kinds.{width_of};
ghost use Rattle.bag_algebra.specs.WellFormed.{WellFormed};
ghost use Rattle.bag_algebra.specs.declared.query.Query.{Query};
ghost use Rattle.tree_texts.specs.plans.Plans.{tokens_of};
ghost use Rattle.tree_texts.specs.Fits.{FitsQuery};
ghost use Rattle.tree_texts.specs.FormPlans as plan;
ghost use Rattle.tree_texts.specs.Forms.{QueryForm};
ghost use Rattle.tree_texts.specs.layout.Lines.{EndsScript};
ghost use Rattle.query_texts.specs.declared.clauses.tables.TableNames.{TableNames};
ghost use Rattle.query_texts.specs.forms.ShownQueries.{shown_answer};
ghost use Rattle.sql_printer.specs.forms.EndedTexts.{IsTextOfForm};
ghost use Rattle.sql_printer.specs.forms.Printable.{AreCharacters, Printable};

/// The form of an answer can be written where its query can be printed.
pub fn a_printed_answer_can_be_written()
    ensures { (tables : List TableNames) (q : Query) (names : List (List ℕ)) (keys : List Key)
        → AllByRecursion AreCharacters tables → AllByRecursion IsUtf8 names → WellFormed [] q
        → Printable q → KeysWithin (width_of q) keys
        → FitsQuery (shown_answer tables q names keys) }
{}

/// A script of the tokens of a form is one query of the form, without the words PROVENANCE and BASERELATION.
pub fn an_ended_text_is_one_query()
    ensures { (form : QueryForm) (text : List ℕ) → EndsScript (tokens_of (plan.query form)) text
        → IsTextOfForm form text }
{}
