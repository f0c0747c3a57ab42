//! Laws of the texts: each is the contract of a function that does nothing.
ghost use Rattle.std.specs.Prelude.{◌≡◌, ℕ, List};
ghost use Rattle.csv.specs.Reading.{default_config, records, strip_bom};
ghost use Rattle.csv_tables.specs.AnswerText.{answer_bytes};
ghost use Rattle.csv_tables.specs.ReadBack.{answer_records};
ghost use Rattle.perm_values.specs.declared.value.Value.{Value as Cell};

/// csv reads the text of an answer back to its names, the fields of its rows and the line of the count.
///
/// The line of one NULL is blank and gives no record; NULL and the empty text read as the same field.
pub fn answers_read_back()
    ensures { (names : List (List ℕ)) (rows : List (List Cell))
        → records default_config (strip_bom (answer_bytes names rows)) ≡ answer_records names rows }
{}
