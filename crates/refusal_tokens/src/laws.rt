//! What is tried is all that the grammar names: the contract of a function that does nothing.
ghost use Rattle.std.specs.Prelude.{◌≡◌, ◌++◌, true};
ghost use Rattle.std.specs.List.{list_all};
ghost use Rattle.sql_tree.specs.grammar.Sorts.{free, reserved, symbols};
ghost use Rattle.refusal_tokens.specs.Tables.{is_tried, marks, names, operators, words};

/// Each word that the grammar names is tried: the reserved ones, and those that may be names; and so is each symbol.
pub fn all_that_the_grammar_names_is_tried()
    ensures reserved { list_all (is_tried words) reserved ≡ true }
    ensures names { list_all (is_tried names) free ≡ true }
    ensures symbols { list_all (is_tried (operators ++ marks)) symbols ≡ true }
{}
