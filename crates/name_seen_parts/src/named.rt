ghost use Rattle.std.specs.Prelude.{◌≡◌, ◌≤◌, ℕ, List, [], cond, nat_eq, position, length, take, drop, filter};
ghost use Rattle.std.specs.Cmp.Lexicographic.{pointwise};
ghost use Rattle.std.specs.List.{enumerate_from};
ghost use Rattle.name_meaning.specs.Scopes.{is_meant, columns_meant_by, item_number, placed};
ghost use Rattle.name_seen_parts.specs.Named.{named_of, with_column};

use name_meaning::{Scope, ScopeColumn};
use perm_values::{Chars, Kind};

/// Which columns of a scope a name means: none, one with its place in the rows and its kind, or several.
#[derive(Clone, Copy, PartialEq, Eq)]
pub enum Named {
    Nowhere,
    Once { place: usize, kind: Kind },
    Often,
}

impl Named {
    /// With one more column behind, if it is meant.
    fn with_if(self, meant: bool, place: usize, kind: Kind) -> Named
        ensures { result ≡ cond meant (with_column self place kind) self }
    {
        if !meant {
            return self;
        }
        match self {
            Named::Nowhere => Named::Once { place, kind },
            Named::Once { .. } => Named::Often,
            Named::Often => Named::Often,
        }
    }
}

/// The number of the first item of this name.
pub fn item_number(scope: &Scope, name: &Chars) -> Option<usize>
    ensures { result ≡ item_number name.now scope.now }
{
    scope.items.place(name)
}

fn is_meant(column: &ScopeColumn, item: Option<usize>, name: &Chars, place: usize) -> bool
    ensures { result ≡ is_meant item name.now (place, column.now) }
{
    match item {
        None => *name == column.name,
        Some(number) => number == column.item && *name == column.name,
    }
}

/// Two places between which all columns of the item stand, or of all items, the second behind them.
fn places_of(scope: &Scope, item: Option<usize>) -> (usize, usize)
    ensures within { (result.0 ≤ result.1) × (result.1 ≤ length scope.now.columns) }
    ensures before { (name : List ℕ) → filter (is_meant item name) (take result.0 (placed scope.now)) ≡ [] }
    ensures behind { (name : List ℕ) → filter (is_meant item name) (drop result.1 (placed scope.now)) ≡ [] }
{
    match item {
        None => (0, scope.columns.len()),
        Some(number) => scope.columns.of_item(number),
    }
}

/// The columns that a name means, those of one item or of all.
pub fn named_in(scope: &Scope, item: Option<usize>, name: &Chars) -> Named
    ensures { result ≡ named_of (columns_meant_by item name.now scope.now) }
{
    let columns = scope.columns.as_slice();
    let (first, end) = places_of(scope, item);
    let mut named = Named::Nowhere;
    for place in first..end {
        let column = &columns[place];
        named = named.with_if(is_meant(column, item, name, place), place, column.kind);
    }
    named
}
