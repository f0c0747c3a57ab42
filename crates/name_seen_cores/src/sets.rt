//! Set operations over operands that were answered or refused.
ghost use Rattle.std.specs.Prelude.{◌≡◌};
ghost use Rattle.name_meaning.specs.Meanings.{QueryMeant};
ghost use Rattle.name_meaning.specs.Queries.{SetStepPart, set_joined};
ghost use Rattle.name_seen_cores.specs.from.Queried.{ColumnsSeen, ColumnsWhole, QueryWhole};
ghost use Rattle.name_seen_cores.specs.Behind.{OperandUnited};
ghost use Rattle.name_seen_cores.specs.declared.from.facts.Facts.{Facts as Gathered};

use crate::from::{Facts, QueryShown};
use name_seen_parts::{Refusal, ShownColumn, operand_break, unite};
use perm_values::List;

/// The columns so far with those of one more operand at this offset, which was answered or refused.
pub fn add_operand(
    left: List<ShownColumn>,
    at: usize,
    right: Result<List<ShownColumn>, Refusal>,
) -> Result<List<ShownColumn>, Refusal>
    ensures { (before : QueryMeant) (step : SetStepPart) (operand : QueryMeant) (old middle new : Gathered)
        → step.at ≡ at
        → ColumnsWhole before old middle left → ColumnsSeen operand middle new right
        → ColumnsSeen (set_joined before step operand) old new result }
{
    match right {
        Ok(right) => united(left, at, right),
        Err(refusal) => {
            drop(left);
            Err(refusal)
        }
    }
}

fn united(
    left: List<ShownColumn>,
    at: usize,
    right: List<ShownColumn>,
) -> Result<List<ShownColumn>, Refusal>
    ensures { OperandUnited at left right result }
{
    operand_break(at, left.as_slice(), right.as_slice())?;
    let mut columns = left.into_vec();
    unite(columns.as_mut_slice(), right.as_slice());
    Ok(List::from_vec(columns))
}

/// The columns of a query in parentheses, whose facts come behind those so far.
pub fn add_shown(shown: QueryShown, facts: &mut Facts) -> Result<List<ShownColumn>, Refusal>
    ensures { (m : QueryMeant) → QueryWhole m shown → ColumnsSeen m facts.old facts.new result }
{
    let QueryShown {
        columns,
        facts: own,
        ..
    } = shown;
    match facts.add(own) {
        Ok(()) => Ok(columns),
        Err(_) => Err(Refusal::NoMemory),
    }
}
