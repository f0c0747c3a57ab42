//! Each character of a script has a place of its own: the law is the contract of a function that does nothing.
ghost use Rattle.std.specs.Prelude.{◌≡◌, ◌<◌, ◌≤◌, ℕ, true, List, length, get_or};
ghost use Rattle.refusal_notes.specs.places.Places.{begins_character, line_of, column_of};

/// An offset behind that of a character is on no earlier line, and on the same line in a further column.
pub fn characters_have_places_of_their_own()
    ensures lines { (script : List ℕ) (m n : ℕ) → m < n → n ≤ length script →
        begins_character (get_or script m 0) ≡ true →
        line_of script m ≤ line_of script n }
    ensures columns { (script : List ℕ) (m n : ℕ) → m < n → n ≤ length script →
        begins_character (get_or script m 0) ≡ true →
        line_of script m ≡ line_of script n → column_of script m < column_of script n }
{}
