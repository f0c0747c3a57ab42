ghost use Rattle.std.specs.Prelude.{◌≡◌, ◌<◌, ◌^◌, length};
ghost use Rattle.std.specs.Option.{option_map_or};
ghost use Rattle.name_meaning.specs.Scopes.{group_count};
ghost use Rattle.name_seen_parts.specs.Named.{here_only, scopes_of};

use name_meaning::Scope;
use name_seen_parts::Scopes;

/// How many columns by which the innermost rows are grouped stand before the aggregates.
pub fn group_count(scopes: &Scopes) -> usize
    ensures value { result ≡ group_count (scopes_of scopes.now) }
    ensures bound { result < 2 ^ 63 }
{
    match scopes {
        Scopes::Outermost => 0,
        Scopes::Inner {
            scope,
            bare,
            depth,
            ..
        } => {
            if *depth == 0 {
                return 0;
            }
            groups_of(scope, *bare)
        }
    }
}

fn groups_of(scope: &Scope, bare: bool) -> usize
    ensures value { result ≡ option_map_or length (here_only bare scope.now).groups 0 }
    ensures bound { result < 2 ^ 63 }
{
    if bare {
        return 0;
    }
    match &scope.groups {
        None => 0,
        Some(groups) => groups.len(),
    }
}
