//! The value of an operand: read where it lies, or made.
ghost use Rattle.std.specs.Prelude.{◌≡◌};

use perm_values::Value;
use std::marker::Model;

/// A value that is read where it lies, or was made.
#[derive(Drop)]
pub(crate) struct Operand<'a> {
    held: Held<'a>,
}

#[derive(Drop)]
enum Held<'a> {
    Seen(&'a Value),
    Made(Value),
}

impl<'a> Model for Operand<'a> {
    ghost use Rattle.perm_values.specs.declared.value.Value.{Value as Cell};
    ghost use Rattle.row_values.specs.Operands.{held_value};

    ghost Value = { Cell };

    ghost view = { λ o. held_value o.held };
}

impl<'a> Operand<'a> {
    /// A value that stays where it lies.
    pub(crate) fn seen(value: &'a Value) -> Operand<'a>
        ensures { result ≡ value.now }
    {
        Operand {
            held: Held::Seen(value),
        }
    }

    /// A value that was made.
    pub(crate) fn made(value: Value) -> Operand<'a>
        ensures { result ≡ value }
    {
        Operand {
            held: Held::Made(value),
        }
    }

    /// The value.
    pub(crate) fn get(&self) -> &Value
        ensures { result.now ≡ self.now }
    {
        match &self.held {
            Held::Seen(value) => value,
            Held::Made(value) => value,
        }
    }
}
