//! Laws of the grammar's words: each is the contract of a function that does nothing.
ghost use Rattle.std.specs.Prelude.{◌≡◌, map};
ghost use Rattle.sql_tree.specs.grammar.Sorts.{reserved};
ghost use Rattle.sql_lexer.specs.Reserved.{reserved_words};

/// The words that are never names are those that the lexer says are reserved.
pub fn reserved_words_are_the_lexers()
    ensures { map (λ entry. entry.0) reserved ≡ reserved_words }
{}
