ghost use Rattle.std.specs.Prelude.{◌≡◌};
ghost use Rattle.name_seen_parts.specs.Seen.{first_or};
ghost use Rattle.name_meaning.specs.Statements.{width_limit};
ghost use Rattle.name_inside.specs.Held.{is_wide};

use name_meaning::{Break, Rule};

/// The most columns that a query may have.
const MOST_COLUMNS: usize = 1024;

/// That the first of the queries with more than 1,024 columns, at its offset, has too many.
pub fn first_wide(queries: &[(usize, usize)]) -> Result<(), Break>
    ensures { result ≡ first_or (width_limit queries.now) tt }
{
    for place in 0..queries.len() {
        let (at, columns) = queries[place];
        if is_wide(columns) {
            return Err(Break {
                rule: Rule::TooManyColumns,
                at,
            });
        }
    }
    Ok(())
}

fn is_wide(columns: usize) -> bool
    ensures { result ≡ is_wide columns }
{
    columns > MOST_COLUMNS
}
