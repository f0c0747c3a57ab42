ghost use Rattle.std.specs.Prelude.{◌≡◌, ◌≤◌, ◌<◌, ◌+◌, ◌^◌, ◌∷◌, IfOk, length, take, option_map, nat_eq, position};
ghost use Rattle.name_meaning.specs.Scopes.{look_up, meant_in, place_among, found_among, ungrouped};
ghost use Rattle.name_seen_parts.specs.Named.{found_of, found_if_any, here_only, scopes_of};

use crate::named::{Named, item_number, named_in};
use name_meaning::{Found, FoundColumn, Scope};
use perm_values::NoMemory;
use sql_tree::ColRef;

/// The scopes that an expression sees, from the inside out. `bare`: whether the rows of the core are seen before they are
/// grouped, as by WHERE and by an argument of an aggregate. `depth`: how many scopes are seen from here, this one and
/// those around it.
#[derive(Clone, Copy)]
pub enum Scopes<'a> {
    Outermost,
    Inner {
        scope: &'a Scope,
        bare: bool,
        depth: usize,
        outer: &'a Scopes<'a>,
    },
}

/// The scope inside the others. It fails only where their number is none that can be counted.
pub fn inside<'a>(
    scope: &'a Scope,
    bare: bool,
    outer: &'a Scopes<'a>,
) -> Result<Scopes<'a>, NoMemory>
    ensures { IfOk result (λ scopes. scopes_of scopes ≡ here_only bare scope.now ∷ scopes_of outer.now) }
{
    match depth(outer).checked_add(1) {
        None => Err(NoMemory),
        Some(depth) => Ok(Scopes::Inner {
            scope,
            bare,
            depth,
            outer,
        }),
    }
}

fn depth(scopes: &Scopes) -> usize
    ensures { length (scopes_of scopes.now) ≤ result }
{
    match scopes {
        Scopes::Outermost => 0,
        Scopes::Inner { depth, .. } => *depth,
    }
}

/// The same scopes, with the innermost rows before they are grouped.
pub fn ungrouped<'a>(scopes: &'a Scopes<'a>) -> Scopes<'a>
    ensures { scopes_of result ≡ ungrouped (scopes_of scopes.now) }
{
    match scopes {
        Scopes::Outermost => Scopes::Outermost,
        Scopes::Inner {
            scope,
            depth,
            outer,
            ..
        } => Scopes::Inner {
            scope,
            bare: true,
            depth: *depth,
            outer,
        },
    }
}

/// What a reference to a column means: it is looked for from the innermost scope to the outermost.
pub fn look_up(scopes: &Scopes, reference: &ColRef) -> Found
    ensures { result ≡ look_up 0 (scopes_of scopes.now) reference.now }
{
    look_up_from(scopes, 0, depth(scopes), reference)
}

/// What a reference means in as many of these scopes as are left, the innermost of which has this level.
fn look_up_from(scopes: &Scopes, level: usize, left: usize, reference: &ColRef) -> Found
    requires { level + left < 2 ^ 64 }
    ensures { result ≡ look_up level (take left (scopes_of scopes.now)) reference.now }
{
    match scopes {
        Scopes::Outermost => Found::Absent,
        Scopes::Inner {
            scope,
            bare,
            depth,
            outer,
        } => {
            let left = left.min(*depth);
            if left == 0 {
                return Found::Absent;
            }
            match found_in(scope, level, *bare, reference) {
                Some(found) => found,
                None => look_up_from(outer, level + 1, left - 1, reference),
            }
        }
    }
}

/// What a reference means in one scope, if it is looked for there.
fn found_in(scope: &Scope, level: usize, bare: bool, reference: &ColRef) -> Option<Found>
    ensures { result ≡ option_map (found_among level (here_only bare scope.now))
        (meant_in reference.now scope.now) }
{
    let name = &reference.name.text;
    match &reference.table {
        None => found_if_any(scope, level, bare, named_in(scope, None, name)),
        Some(table) => match item_number(scope, &table.text) {
            None => None,
            Some(number) => Some(found_at(scope, level, bare, named_in(scope, Some(number), name))),
        },
    }
}

fn found_if_any(scope: &Scope, level: usize, bare: bool, named: Named) -> Option<Found>
    ensures { result ≡ found_if_any level (here_only bare scope.now) named }
{
    match named {
        Named::Nowhere => None,
        Named::Once { .. } => Some(found_at(scope, level, bare, named)),
        Named::Often => Some(found_at(scope, level, bare, named)),
    }
}

fn found_at(scope: &Scope, level: usize, bare: bool, named: Named) -> Found
    ensures { result ≡ found_of level (here_only bare scope.now) named }
{
    match named {
        Named::Nowhere => Found::Absent,
        Named::Once { place, kind } => Found::Column(FoundColumn {
            level,
            place: place_among(scope, bare, place),
            kind,
        }),
        Named::Often => Found::Ambiguous,
    }
}

/// Where a column stands in the rows of its core, or in those before they are grouped.
pub fn place_among(scope: &Scope, bare: bool, place: usize) -> Option<usize>
    ensures { result ≡ place_among (here_only bare scope.now).groups place }
{
    if bare {
        return Some(place);
    }
    match &scope.groups {
        None => Some(place),
        Some(groups) => position_of(groups.as_slice(), place),
    }
}

fn position_of(groups: &[usize], place: usize) -> Option<usize>
    ensures { result ≡ position (nat_eq place) groups.now }
{
    groups.iter().position(|group| place == *group)
}
