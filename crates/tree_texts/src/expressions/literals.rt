//! Writes values.
ghost use Rattle.std.specs.Prelude.{◌≡◌, ◌++◌, OnOk, unsigned_abs};
ghost use Rattle.std.specs.Int.{is_negative};
ghost use Rattle.tree_texts.specs.expressions.Words.{literal_text, negative_text, null_text, signed_text};

use crate::expressions::draft::Draft;
use crate::expressions::words::{kind_text, truth_text};
use perm_values::{Kind, NoMemory, Value};

/// How far the least integer is from 0, which is no integer.
const LEAST: u64 = 9223372036854775808;

impl Draft {
    /// NULL of a kind.
    pub fn push_null(&mut self, kind: Kind) -> Result<(), NoMemory>
        ensures { OnOk result (self.new ≡ self.old ++ null_text kind) }
    {
        self.push(b"CAST ( NULL AS ")?;
        self.push(kind_text(kind))?;
        self.push(b") ")
    }

    /// The integer so far below 0.
    fn push_negative(&mut self, amount: u64) -> Result<(), NoMemory>
        ensures { OnOk result (self.new ≡ self.old ++ negative_text amount) }
    {
        if amount == LEAST {
            return self.push(b"( ( - 9223372036854775807 ) - 1 ) ");
        }
        self.push(b"( - ")?;
        self.push_number(amount)?;
        self.push(b") ")
    }

    fn push_signed(&mut self, number: i64) -> Result<(), NoMemory>
        ensures { OnOk result (self.new
            ≡ self.old ++ signed_text (is_negative number) (unsigned_abs number)) }
    {
        if number.is_negative() {
            self.push_negative(number.unsigned_abs())
        } else {
            self.push_number(number.unsigned_abs())
        }
    }

    /// A value as it is written, where NULL is of a kind.
    pub(crate) fn push_literal(&mut self, value: &Value, kind: Kind) -> Result<(), NoMemory>
        ensures { OnOk result (self.new ≡ self.old ++ literal_text value.now kind) }
    {
        match value {
            Value::Null => self.push_null(kind),
            Value::Integer(number) => self.push_signed(*number),
            Value::Text(spelled) => self.push_spelled(spelled.bytes()),
            Value::Boolean(truth) => self.push(truth_text(*truth)),
        }
    }
}
