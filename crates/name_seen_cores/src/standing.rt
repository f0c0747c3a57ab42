//! How the expressions of a core stand.
ghost use Rattle.std.specs.Prelude.{◌≡◌, ◌∷◌, List as Items};
ghost use Rattle.name_meaning.specs.Froms.{in_clause};
ghost use Rattle.name_meaning.specs.declared.scope.Scope.{Scope as Seen};
ghost use Rattle.name_seen_parts.specs.Standing.{standing_in};

use name_seen_parts::Standing;

/// How an expression stands in a clause of a core or in ON, where an aggregate may stand or not.
pub fn in_clause(aggregates: bool) -> Standing
    ensures { (scope : Seen) (outer : Items Seen) → standing_in (scope ∷ outer) result
        ≡ in_clause scope outer aggregates }
{
    Standing {
        aggregates,
        sublinks: true,
        argument: false,
    }
}
