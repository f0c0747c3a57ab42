//! Each law is the contract of a function that does nothing.
ghost use Rattle.std.specs.Prelude.{◌≡◌, ◌≤◌, ℕ, List, [], ◌∷◌, ◌++◌, codes, false};
ghost use Rattle.std.specs.Fmt.{decimal};
ghost use Rattle.perm_engine.specs.meaning.words.Requests.{is_dashed, request_of};
ghost use Rattle.perm_engine.specs.declared.meaning.words.wanted.Wanted.TheVariants.{Script, Generated, Misworded};

/// A word that doesn't begin with a dash is a script, where it stands alone or behind `--`, and so is a dash alone.
pub fn a_word_without_a_dash_is_a_script()
    ensures alone { (word : List ℕ) → is_dashed word ≡ false → request_of (word ∷ []) ≡ Script word }
    ensures dash { request_of (codes "-" ∷ []) ≡ Script (codes "-") }
    ensures behind { (word : List ℕ) → request_of (codes "--" ∷ word ∷ []) ≡ Script word }
{}

/// No words, two words that don't begin with a dash, and such a word behind a number are refused.
pub fn other_words_are_refused()
    ensures none { request_of [] ≡ Misworded }
    ensures two { (first second : List ℕ) → is_dashed first ≡ false → is_dashed second ≡ false
        → request_of (first ∷ second ∷ []) ≡ Misworded }
    ensures both { (text word : List ℕ) → is_dashed text ≡ false → is_dashed word ≡ false
        → request_of (codes "--generate" ∷ text ∷ word ∷ []) ≡ Misworded }
{}

/// A number that is generated from lies from 1 to 100,000, and each of these is taken in decimal.
pub fn a_number_lies_in_its_range()
    ensures within { (words : List (List ℕ)) (rows : ℕ)
        → request_of words ≡ Generated rows → (1 ≤ rows) × (rows ≤ 100000) }
    ensures taken { (rows : ℕ) → 1 ≤ rows → rows ≤ 100000
        → request_of (codes "--generate" ∷ decimal rows ∷ []) ≡ Generated rows }
    ensures equals { (rows : ℕ) → 1 ≤ rows → rows ≤ 100000
        → request_of ((codes "--generate=" ++ decimal rows) ∷ []) ≡ Generated rows }
{}
