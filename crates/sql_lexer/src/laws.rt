//! Laws of lexing: each is the contract of a function that does nothing.
ghost use Rattle.std.specs.Prelude.{◌≡◌, ◌+◌, ◌⊎◌, ◌++◌, ℕ, [], List, length};
ghost use Rattle.std.specs.List.{AllByRecursion};
ghost use Rattle.std.specs.Str.{IsUtf8};
ghost use Rattle.sql_lexer.specs.Lexes.{LexesTo, Lexes, Refuses};
ghost use Rattle.sql_lexer.specs.Printing.{IsSpellable, IsSpanned, Rises, spaced, placed};
ghost use Rattle.sql_lexer.specs.declared.lex_error.LexError.{LexError};
ghost use Rattle.sql_lexer.specs.declared.token.Token.{Token};

/// A script has one list of tokens or one refusal, and never both.
pub fn lexing_is_unique()
    ensures one_list { (bytes : List ℕ) (ts us : List Token)
        → Lexes bytes ts → Lexes bytes us → ts ≡ us }
    ensures one_refusal { (bytes : List ℕ) (d e : LexError)
        → Refuses bytes d → Refuses bytes e → d ≡ e }
    ensures not_both { (bytes : List ℕ) (ts : List Token) (e : LexError)
        → Lexes bytes ts → Refuses bytes e → ⊥ }
    ensures either { (bytes : List ℕ)
        → ((ts : List Token) × Lexes bytes ts) ⊎ ((e : LexError) × Refuses bytes e) }
{}

/// The tokens of a script stand in it one after another, and each spells the bytes between its places.
pub fn spans_rise()
    ensures rise { (bytes : List ℕ) (ts : List Token) → Lexes bytes ts → Rises 0 ts }
    ensures span { (bytes : List ℕ) (ts : List Token)
        → Lexes bytes ts → AllByRecursion (IsSpanned bytes) ts }
{}

/// Tokens that are printed with a space behind each are read again, whatever follows them, and so is the whole script.
/// The tokens of any script can be printed.
pub fn printed_tokens_are_read()
    ensures front { (at : ℕ) (ts : List Token) (rest : List ℕ) → AllByRecursion IsSpellable ts
        → LexesTo at (spaced ts ++ rest) (placed at ts) (at + length (spaced ts)) rest }
    ensures script { (ts : List Token) → AllByRecursion IsSpellable ts
        → AllByRecursion (λ t. IsUtf8 t.spelled) ts → Lexes (spaced ts) (placed 0 ts) }
    ensures any { (bytes : List ℕ) (ts : List Token) → Lexes bytes ts → AllByRecursion IsSpellable ts }
{}
