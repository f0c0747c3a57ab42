//! What a sublink's rows are chosen by, and how they stand beside a row.
ghost use Rattle.std.specs.Prelude.{◌≡◌, Some};
ghost use Rattle.lateral_rewrite.specs.Dependent.{choice_of};

use bag_algebra::SubKind;
use null_logic::{Compare, Truth};

/// With this truth a sublink lets those rows alone contribute whose comparison has it too.
#[derive(Clone, Copy)]
pub struct Choice {
    pub truth: Truth,
    pub compare: Compare,
}

/// A true ANY and a false ALL choose; EXISTS and a scalar sublink don't.
pub fn choice_of(kind: SubKind) -> Option<Choice>
    ensures { result ≡ choice_of kind }
{
    match kind {
        SubKind::Exists => None,
        SubKind::Any(compare) => chooses(Truth::True, compare),
        SubKind::All(compare) => chooses(Truth::False, compare),
        SubKind::Scalar => None,
    }
}

fn chooses(truth: Truth, compare: Compare) -> Option<Choice>
    ensures { result ≡ Some (record { truth = truth; compare = compare }) }
{
    Some(Choice { truth, compare })
}

/// Where a row's value and left operand stand, seen from the rows of a sublink's query: in the nearest outer row.
pub(crate) fn row_level() -> usize
    ensures { result ≡ 1 }
{
    1
}
