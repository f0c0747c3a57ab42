//! Names of columns at their places.
ghost use Rattle.std.specs.Prelude.{◌≡◌, [], IfOk, slice_index_or};
ghost use Rattle.name_meaning.specs.Froms.{names_at};

use perm_values::{Chars, Copyable, List, NoMemory};
use std::alloc::Global;

/// The names at these places; one out of range counts as empty.
pub fn names_at(alloc: Global, names: &[Chars], places: &[usize]) -> Result<List<Chars>, NoMemory>
    ensures { IfOk result (λ found. found ≡ names_at names.now places.now) }
{
    let mut found = List::new(alloc);
    for place in places {
        found.push(name_at(alloc, names, *place)?)?;
    }
    Ok(found)
}

fn name_at(alloc: Global, names: &[Chars], place: usize) -> Result<Chars, NoMemory>
    ensures { IfOk result (λ name. name ≡ slice_index_or names.now place []) }
{
    match names.get(place) {
        Some(name) => name.copy(alloc),
        None => Chars::from_text(alloc, ""),
    }
}
