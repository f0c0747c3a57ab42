ghost use Rattle.std.specs.Prelude.{◌≡◌, option_map};
ghost use Rattle.null_logic.specs.Operators.{entry_of};
ghost use Rattle.name_meaning.specs.Operands.{row_of, need_for, need_of, gives_of};

use name_meaning::{Gives, Need};
use null_logic::{Needs, OPERATORS, OpRow, Operator};
use perm_values::Kind;

/// The operator's row of the table of operators; `prefix`: whether it stands before its one operand.
fn row_of(op: Operator, prefix: bool) -> Option<OpRow>
    ensures { option_map entry_of result ≡ row_of op prefix }
{
    match OPERATORS.find(op.spelling().as_bytes(), prefix) {
        None => None,
        Some(row) => Some(*row),
    }
}

/// What the operator needs of each of its operands.
pub fn need_of(op: Operator, prefix: bool) -> Need
    ensures { result ≡ need_of op prefix }
{
    match row_of(op, prefix) {
        None => Need::Free,
        Some(row) => need_for(row.needs),
    }
}

fn need_for(needs: Needs) -> Need
    ensures { result ≡ need_for needs }
{
    match needs {
        Needs::Integers => Need::OfKind(Kind::Integer),
        Needs::Texts => Need::OfKind(Kind::Text),
        Needs::Booleans => Need::OfKind(Kind::Boolean),
        Needs::Alike => Need::Alike,
    }
}

/// What the operator gives.
pub fn gives_of(op: Operator, prefix: bool) -> Gives
    ensures { result ≡ gives_of op prefix }
{
    match row_of(op, prefix) {
        None => Gives::Common,
        Some(row) => Gives::Always(row.gives),
    }
}
