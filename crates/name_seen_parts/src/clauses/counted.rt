ghost use Rattle.std.specs.Prelude.{◌≡◌, ◌++◌, nat_eq, nat_lt};
ghost use Rattle.name_seen_parts.specs.Seen.{first_or};
ghost use Rattle.name_meaning.specs.Meanings.{broken_if};
ghost use Rattle.name_meaning.specs.declared.rule.Rule.TheVariants as rule;

use name_meaning::{Break, Rule};

/// That a name at this offset names no column, or more than one.
pub fn count_break(count: usize, at: usize) -> Result<(), Break>
    ensures { result ≡ first_or
        (broken_if (nat_eq count 0) rule.UnknownColumn at
        ++ broken_if (nat_lt 1 count) rule.AmbiguousColumn at) tt }
{
    if count == 0 {
        return Err(Break {
            rule: Rule::UnknownColumn,
            at,
        });
    }
    if count > 1 {
        return Err(Break {
            rule: Rule::AmbiguousColumn,
            at,
        });
    }
    Ok(())
}
