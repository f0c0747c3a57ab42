//! Laws of texts: each is the contract of a function that does nothing.
ghost use Rattle.std.specs.Prelude.{ℕ, List};
ghost use Rattle.std.specs.List.{AllByRecursion};
ghost use Rattle.sql_lexer.specs.Lexes.{Lexes};
ghost use Rattle.sql_lexer.specs.declared.token.Token.{Token};
ghost use Rattle.sql_tree.specs.grammar.Grammar.{SqlRule, sql};
ghost use Rattle.sql_tree.specs.grammar.Rules.{Spelled};
ghost use Rattle.sql_tree.specs.grammar.Symbols as n;
ghost use Rattle.sql_parser.specs.Texts.{IsTextOf};
ghost use Rattle.sql_tree.specs.declared.query.QueryTree.{QueryTree};
ghost use Rattle.sql_tree.specs.declared.statement.Script.{Script};
ghost use Rattle.tree_texts.specs.plans.Plans.{Plan, tokens_of};
ghost use Rattle.tree_texts.specs.Fits.{FitsQuery};
ghost use Rattle.tree_texts.specs.FormPlans as plan;
ghost use Rattle.tree_texts.specs.Forms.{QueryForm};
ghost use Rattle.tree_texts.specs.Standing.{Places, CanStand, given, standing};
ghost use Rattle.tree_texts.specs.Texts.{places_from, query_text, script, script_text, shown_tokens};
ghost use Rattle.tree_texts.specs.Trees.{IsQuery, IsScript};

/// The tokens of a plan spell its tree wherever they stand.
pub fn a_plan_spells_its_tree_anywhere()
    ensures { (rule : SqlRule) (p : Plan rule) (places : Places) (i : ℕ)
        → Spelled sql rule (standing places i (tokens_of p)) (given places i p) }
{}

/// Tokens that are shown with a blank behind each are read again, words in capital letters too.
pub fn shown_tokens_are_read()
    ensures { (tokens : List Token) → AllByRecursion CanStand tokens
        → Lexes (shown_tokens tokens) (standing (places_from 0 tokens) 0 tokens) }
{}

/// A text that is split into the tokens of a form, with any blanks between them, is a text of a tree of the form.
pub fn a_form_has_its_tree_wherever_it_stands()
    ensures query { (form : QueryForm) (places : Places) (text : List ℕ)
        → Lexes text (standing places 0 (tokens_of (plan.query form)))
        → (tree : QueryTree) × IsQuery form tree × IsTextOf n.Query text tree }
    ensures script { (form : QueryForm) (places : Places) (text : List ℕ)
        → Lexes text (standing places 0 (tokens_of (script (plan.query form))))
        → (tree : Script) × IsScript form tree × IsTextOf n.ScriptOf text tree }
{}

/// The text of a form is a text of a tree of the form, where its numbers and names can be written.
pub fn a_form_is_read_as_its_tree()
    ensures query { (form : QueryForm) → FitsQuery form
        → (tree : QueryTree) × IsQuery form tree × IsTextOf n.Query (query_text form) tree }
    ensures script { (form : QueryForm) → FitsQuery form
        → (tree : Script) × IsScript form tree × IsTextOf n.ScriptOf (script_text form) tree }
{}
