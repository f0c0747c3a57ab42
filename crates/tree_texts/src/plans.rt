//! Plans of what is printed: how a rule of the grammar is spelled, with the tokens, the text and the tree of it.
//! Laws of plans: each is the contract of a function that does nothing.
ghost use Rattle.std.specs.Prelude.{◌≡◌, ℕ, ◌+◌, List, true};
ghost use Rattle.std.specs.List.{AllByRecursion};
ghost use Rattle.std.specs.Str.{IsUtf8};
ghost use Rattle.sql_lexer.specs.Lexes.{Lexes};
ghost use Rattle.sql_lexer.specs.Printing.{IsSpellable, spaced, placed};
ghost use Rattle.sql_lexer.specs.declared.token.Token.{Token};
ghost use Rattle.sql_tree.specs.grammar.Building.{node};
ghost use Rattle.sql_tree.specs.grammar.Grammar.{SqlRule, sql};
ghost use Rattle.sql_tree.specs.grammar.Rules.{Spelled, symbol};
ghost use Rattle.sql_tree.specs.grammar.Sorts.{sort_of};
ghost use Rattle.sql_tree.specs.declared.grammar.sort.Sort.{Sort};
ghost use Rattle.sql_tree.specs.grammar.Symbols as n;
ghost use Rattle.sql_tree.specs.grammar.Symbols.{Symbol};
ghost use Rattle.sql_parser.specs.Texts.{IsTextOf};
ghost use Rattle.sql_tree.specs.declared.expression.ExprBody.TheVariants as e;
ghost use Rattle.tree_texts.specs.plans.Levels.{expression, parens};
ghost use Rattle.tree_texts.specs.plans.Plans.{Plan, Told, text_of, tokens_of, value};
ghost use Rattle.tree_texts.specs.plans.Written.{is_written, token_for};

/// A sort that is written in one way has a token of that sort, and it can be printed.
pub fn written_sorts_have_tokens()
    ensures sorted { (sort : Sort) → is_written sort ≡ true → sort_of (token_for sort) ≡ sort }
    ensures spellable { (sort : Sort) → is_written sort ≡ true → IsSpellable (token_for sort) }
{}

/// The tokens of a plan spell its tree, wherever its text stands; its text is that of its tokens, with a space behind
/// each.
pub fn a_plan_spells_its_tree()
    ensures spelled { (rule : SqlRule) (p : Plan rule) (at : ℕ)
        → Spelled sql rule (placed at (tokens_of p)) (value at p) }
    ensures text { (rule : SqlRule) (p : Plan rule) → text_of p ≡ spaced (tokens_of p) }
{}

/// Tokens that are printed with a space behind each are read again where that is a text.
pub fn spaced_tokens_are_read()
    ensures { (tokens : List Token) → AllByRecursion IsSpellable tokens → IsUtf8 (spaced tokens)
        → Lexes (spaced tokens) (placed 0 tokens) }
{}

/// The text of a plan is split into its tokens, where each token that the plan chooses can be written.
pub fn a_plan_is_read()
    ensures { (rule : SqlRule) (p : Plan rule) → Told p → IsUtf8 (text_of p)
        → Lexes (text_of p) (placed 0 (tokens_of p)) }
{}

/// The text of a plan is a text of the tree that it spells.
pub fn a_plan_gives_a_text_of_its_tree()
    ensures { (n : Symbol) (p : Plan (symbol n)) → Told p → IsUtf8 (text_of p)
        → IsTextOf n (text_of p) (value 0 p) }
{}

/// An expression without an operator is its part, and one in parentheses is a node of its own.
pub fn levels_add_no_node()
    ensures alone { (p : Plan (symbol n.Primary)) (at : ℕ) → value at (expression p) ≡ value at p }
    ensures enclosed { (p : Plan (symbol n.Expr)) (at : ℕ)
        → value at (parens p) ≡ node at (e.Paren (value (at + 2) p)) }
{}
