//! Advice for the words of a statement.
ghost use Rattle.std.specs.Prelude.{◌≡◌};
ghost use Rattle.refusal_hints.specs.Advice.{first_advice};
ghost use Rattle.refusal_hints.specs.Tables.{statement_words};
ghost use Rattle.refusal_hints.specs.Words.{pieces};

use crate::clues::word_length;
use crate::slices::{from, up_to};
use crate::tables::statement_advice;

/// The advice of the first word that has some, in these bytes of a statement.
#[tactic(auto, using(crate::proofs::Parted::advice_found, crate::proofs::Parted::advice_further, crate::proofs::Parted::advice_nowhere))]
pub(crate) fn first_statement_advice(bytes: &[u8]) -> &'static [u8]
    ensures { result.now ≡ first_advice statement_words (pieces bytes.now) }
{
    let mut rest = bytes;
    'words: loop {
        let end = word_length(rest);
        let advice = statement_advice(up_to(rest, end));
        if !advice.is_empty() {
            return advice;
        }
        if end >= rest.len() {
            return b"";
        }
        rest = from(rest, end + 1);
    }
}
