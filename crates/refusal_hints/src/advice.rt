//! Advice, looked up by a text.
ghost use Rattle.std.specs.Prelude.{◌≡◌, map};
ghost use Rattle.refusal_hints.specs.Advice.{advice_in, row_of};

use crate::slices::same;

/// A text of a script, and what a person may do where the script is refused at it.
#[derive(Clone, Copy)]
pub(crate) struct Advised {
    pub(crate) text: &'static [u8],
    pub(crate) advice: &'static [u8],
}

/// The advice of the first row of this text; none where no row is of it.
#[tactic(auto, using(crate::proofs::Rows::advice_more, crate::proofs::Rows::advice_none))]
pub(crate) fn advice_in(rows: &[Advised], text: &[u8]) -> &'static [u8]
    ensures { result.now ≡ advice_in (map row_of rows.now) text.now }
{
    for row in rows {
        if same(row.text, text) {
            return row.advice;
        }
    }
    b""
}
