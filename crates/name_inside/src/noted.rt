//! Names in ascending order of bytes, each once.
ghost use Rattle.std.specs.Prelude.{◌≡◌, ◌≤◌, IfOk, IfSome, MatchOption, OnOk, insert, length};
ghost use Rattle.name_meaning.specs.Statements.{all_noted, noted};

use perm_values::{Chars, Copyable, List, NoMemory};
use std::alloc::Global;
use std::cmp::Ordering;

/// Copies of the names in ascending order of bytes, each once.
pub fn all_noted(alloc: Global, names: &[Chars]) -> Result<List<Chars>, NoMemory>
    ensures { IfOk result (λ sorted. sorted ≡ all_noted names.now) }
{
    let mut sorted = Vec::new(alloc);
    let mut left = names.len();
    while left > 0 {
        left -= 1;
        note(alloc, &names[left], &mut sorted)?;
    }
    Ok(List::from_vec(sorted))
}

/// Puts a copy of the name where it comes, unless it stands there.
fn note(alloc: Global, name: &Chars, sorted: &mut Vec<Chars>) -> Result<(), NoMemory>
    ensures { OnOk result (sorted.new.items ≡ noted name.now sorted.old.items) }
{
    match place_for(name, sorted.as_slice()) {
        None => Ok(()),
        Some(place) => {
            sorted.insert(place, name.copy(alloc)?)?;
            Ok(())
        }
    }
}

/// The place where the name comes among those in order; none where it stands there.
fn place_for(name: &Chars, sorted: &[Chars]) -> Option<usize>
    ensures within { IfSome result (λ place. place ≤ length sorted.now) }
    ensures comes { MatchOption result (noted name.now sorted.now
        ≡ sorted.now) (λ place. noted name.now sorted.now ≡ insert sorted.now place name.now) }
{
    for place in 0..sorted.len() {
        match name.as_str().cmp(sorted[place].as_str()) {
            Ordering::Less => return Some(place),
            Ordering::Equal => return None,
            Ordering::Greater => {}
        }
    }
    Some(sorted.len())
}
