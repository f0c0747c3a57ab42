//! The kinds that are wanted of parts which may be of any.
ghost use Rattle.std.specs.Prelude.{◌≡◌, map};
ghost use Rattle.perm_catalog.specs.Contents.{Contents};
ghost use Rattle.perm_values.specs.declared.kind.Kind.{Kind};
ghost use Rattle.name_meaning.specs.Expressions.{first_need};
ghost use Rattle.name_meaning.specs.Operands.{alike_wanted, wanted_of};
ghost use Rattle.name_meaning.specs.Trees.{step_of};

use crate::{Gives, Need};
use perm_values::Kind;
use sql_tree::ExprStep;

/// The kind that is wanted of operands which are to be alike: the one that is wanted of the whole, if they give it.
pub fn alike_wanted(gives: Gives, wanted: Kind) -> Kind
    ensures { result ≡ alike_wanted gives wanted }
{
    match gives {
        Gives::Always(_) => Kind::Text,
        Gives::Common => wanted,
    }
}

/// The kind that is wanted of an operand of this need.
pub fn wanted_of(alike: Kind, need: Need) -> Kind
    ensures { result ≡ wanted_of alike need }
{
    match need {
        Need::OfKind(kind) => kind,
        Need::Alike => alike,
        Need::Free => Kind::Text,
    }
}

/// The kind that a chain wants of its first operand: what its first step does.
pub fn chain_start(steps: &[ExprStep]) -> Kind
    ensures { (c : Contents) (alike : Kind)
        → result ≡ wanted_of alike (first_need (map (step_of c) steps.now)) }
{
    if steps.is_empty() {
        Kind::Text
    } else {
        Kind::Integer
    }
}
