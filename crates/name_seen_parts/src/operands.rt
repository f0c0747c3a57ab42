ghost use Rattle.std.specs.Prelude.{◌≡◌};
ghost use Rattle.name_seen_parts.specs.Seen.{no_operand, with_operand, fitted, whole_of};

use crate::kinds::{united_kind, unites};
use name_meaning::{Break, Gives, Need, Rule};
use perm_values::Kind;

/// What the operands of a node come to so far: the kind to which those that are to be alike were united, and the offset
/// of the first that doesn't have the kind that it needs or doesn't unite with those before it.
#[derive(Clone, Copy, PartialEq, Eq)]
pub struct Operands {
    pub common: Option<Kind>,
    pub unfit: Option<usize>,
}

impl Operands {
    /// Of no operand.
    pub fn none() -> Operands
        ensures { result ≡ no_operand }
    {
        Operands {
            common: None,
            unfit: None,
        }
    }

    /// With one more operand, of this kind.
    pub fn with(self, need: Need, at: usize, kind: Option<Kind>) -> Operands
        ensures { result ≡ with_operand need at kind self }
    {
        match need {
            Need::OfKind(wanted) => self.fitted(unites(Some(wanted), kind), at),
            Need::Alike => Operands {
                common: united_kind(self.common, kind),
                unfit: self.fitted(unites(self.common, kind), at).unfit,
            },
            Need::Free => self,
        }
    }

    fn fitted(self, fits: bool, at: usize) -> Operands
        ensures { result ≡ fitted fits at self }
    {
        if fits || self.unfit.is_some() {
            return self;
        }
        Operands {
            common: self.common,
            unfit: Some(at),
        }
    }

    /// The kind of the whole, or that kinds differ at the first operand that doesn't fit.
    pub fn whole(self, gives: Gives) -> Result<Option<Kind>, Break>
        ensures { result ≡ whole_of gives self }
    {
        match self.unfit {
            Some(at) => Err(Break {
                rule: Rule::UnfitKind,
                at,
            }),
            None => match gives {
                Gives::Always(kind) => Ok(Some(kind)),
                Gives::Common => Ok(self.common),
            },
        }
    }
}
