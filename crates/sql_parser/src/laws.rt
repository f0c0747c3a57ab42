ghost use Rattle.std.specs.Prelude.{◌≡◌, ◌⊎◌, ℕ, List, Some};
ghost use Rattle.sql_lexer.specs.declared.token.Token.{Token};
ghost use Rattle.sql_lexer.specs.Lexes.{Lexes};
ghost use Rattle.sql_tree.specs.Regular.{Regular};
ghost use Rattle.sql_tree.specs.declared.statement.Script.{Script};
ghost use Rattle.sql_tree.specs.grammar.Symbols.{Symbol, Tree};
ghost use Rattle.sql_parser.specs.Levels.{AreReadByTable};
ghost use Rattle.sql_parser.specs.Spells.{Spells, IsUnexpected};
ghost use Rattle.sql_parser.specs.Texts.{IsTextOf, tree_in};

/// Tokens spell no two scripts.
pub fn a_script_has_one_tree()
    ensures { (tokens : List Token) (a b : Script) → Spells tokens a → Spells tokens b → a ≡ b }
{}

/// Tokens of which one is unexpected spell no script.
pub fn an_unexpected_token_has_no_tree()
    ensures { (tokens : List Token) (length at : ℕ) (script : Script)
        → IsUnexpected tokens length at → Spells tokens script → ⊥ }
{}

/// No tokens are unexpected at two offsets.
pub fn an_unexpected_token_has_one_offset()
    ensures { (tokens : List Token) (length a b : ℕ)
        → IsUnexpected tokens length a → IsUnexpected tokens length b → a ≡ b }
{}

/// Tokens spell a script, or one of them is unexpected, or the end is.
pub fn tokens_spell_a_script_or_one_is_unexpected()
    ensures { (tokens : List Token) (length : ℕ)
        → ((script : Script) × Spells tokens script) ⊎ ((at : ℕ) × IsUnexpected tokens length at) }
{}

/// Every script that the tokens of some bytes spell is regular.
pub fn a_spelled_script_is_regular()
    ensures { (bytes : List ℕ) (tokens : List Token) (script : Script)
        → Lexes bytes tokens → Spells tokens script → Regular script }
{}

/// A text spells the tree that is computed from it, and no other: so the worked examples hold of the grammar itself.
pub fn computed_trees_are_spelled()
    ensures spelled { (n : Symbol) (text : List ℕ) (tree : Tree n)
        → tree_in n text ≡ Some tree → IsTextOf n text tree }
    ensures only { (n : Symbol) (text : List ℕ) (a b : Tree n)
        → IsTextOf n text a → IsTextOf n text b → a ≡ b }
{}

/// The grammar reads at each level exactly the operators that the table of operators has there, in its order, and at
/// level 4 IS; each operand is of the next level; and the token that spells a row makes the row's operator.
pub fn operators_are_read_by_their_table()
    ensures { AreReadByTable }
{}
