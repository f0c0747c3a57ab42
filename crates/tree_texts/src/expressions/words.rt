//! Words of SQL, each with a blank behind it.
ghost use Rattle.std.specs.Prelude.{◌≡◌};
ghost use Rattle.tree_texts.specs.expressions.ExpressionTexts.{truth_back, truth_front};
ghost use Rattle.tree_texts.specs.expressions.Words.{additive_word, chain_word, compare_text, kind_text, multiplicative_word, truth_text};

use null_logic::{Arith, Compare, Truth};
use perm_values::Kind;

pub(crate) fn kind_text(kind: Kind) -> &'static [u8]
    ensures { result.now ≡ kind_text kind }
{
    match kind {
        Kind::Integer => b"BIGINT ",
        Kind::Text => b"TEXT ",
        Kind::Boolean => b"BOOLEAN ",
    }
}

pub(crate) fn truth_text(truth: bool) -> &'static [u8]
    ensures { result.now ≡ truth_text truth }
{
    if truth { b"TRUE " } else { b"FALSE " }
}

pub(crate) fn compare_text(compare: Compare) -> &'static [u8]
    ensures { result.now ≡ compare_text compare }
{
    match compare {
        Compare::Equal => b"= ",
        Compare::NotEqual => b"<> ",
        Compare::Less => b"< ",
        Compare::LessEqual => b"<= ",
        Compare::Greater => b"> ",
        Compare::GreaterEqual => b">= ",
    }
}

fn additive_word(op: Arith) -> &'static [u8]
    ensures { result.now ≡ additive_word op }
{
    match op {
        Arith::Add => b"+ ",
        Arith::Subtract => b"- ",
        Arith::Multiply => b"- ",
        Arith::Divide => b"- ",
        Arith::Remainder => b"- ",
    }
}

fn multiplicative_word(op: Arith) -> &'static [u8]
    ensures { result.now ≡ multiplicative_word op }
{
    match op {
        Arith::Add => b"* ",
        Arith::Subtract => b"* ",
        Arith::Multiply => b"* ",
        Arith::Divide => b"/ ",
        Arith::Remainder => b"% ",
    }
}

/// An operation of a chain, whose level is given.
pub(crate) fn chain_word(additive: bool, op: Arith) -> &'static [u8]
    ensures { result.now ≡ chain_word additive op }
{
    if additive {
        additive_word(op)
    } else {
        multiplicative_word(op)
    }
}

pub(crate) fn truth_front(truth: Truth) -> &'static [u8]
    ensures { result.now ≡ truth_front truth }
{
    match truth {
        Truth::True => b"( ",
        Truth::False => b"( ",
        Truth::Unknown => b"( ( NOT ",
    }
}

pub(crate) fn truth_back(truth: Truth) -> &'static [u8]
    ensures { result.now ≡ truth_back truth }
{
    match truth {
        Truth::True => b"IS TRUE ) ",
        Truth::False => b"IS FALSE ) ",
        Truth::Unknown => b") IS NULL ) ",
    }
}
