//! The limits that are looked at where names and kinds break no rule.
ghost use Rattle.std.specs.Prelude.{◌≡◌, Ok, IfOk, IfErr, IsErrAnd, nat_lt};
ghost use Rattle.name_seen_parts.specs.Seen.{first_or};
ghost use Rattle.name_seen_parts.specs.declared.refusal.Refusal.TheVariants.{Break as Broken};
ghost use Rattle.name_meaning.specs.Statements.{greatest_height, size_limit};

use bag_algebra::{Query, height, size};
use name_meaning::{Break, Rule};
use name_seen_parts::Refusal;

/// The greatest height of a query.
const GREATEST_HEIGHT: u64 = 256;

/// The most operators of a query.
const MOST_OPERATORS: u64 = 65_536;

/// Whether a query may not be so high.
pub(crate) fn is_too_high(height: u64) -> bool
    ensures { result ≡ nat_lt greatest_height height }
{
    height > GREATEST_HEIGHT
}

/// That the query, whose tree stands at this offset, is too high or has too many operators.
pub(crate) fn size_break(at: usize, query: &Query) -> Result<(), Break>
    ensures { result ≡ first_or (size_limit at query.now) tt }
{
    if height(query) > GREATEST_HEIGHT || size(query) > MOST_OPERATORS {
        return Err(Break {
            rule: Rule::TooLarge,
            at,
        });
    }
    Ok(())
}

/// What keeps within a limit, or the break of the limit.
pub fn within<T: Drop>(value: T, limit: Result<(), Break>) -> Result<T, Refusal>
    ensures kept { IfOk result (λ same. (same ≡ value) × (limit ≡ Ok tt)) }
    ensures broken { IfErr result (λ refusal. IsErrAnd limit (λ first. refusal ≡ Broken first)) }
{
    match limit {
        Ok(()) => Ok(value),
        Err(first) => Err(Refusal::Break(first)),
    }
}
