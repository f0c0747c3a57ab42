//! Attributes of marks of FROM: what they break, and the columns that they name.
ghost use Rattle.std.specs.Prelude.{◌≡◌, [], Some, IfOk, count_by};
ghost use Rattle.name_seen_parts.specs.Seen.{first_or};
ghost use Rattle.name_meaning.specs.Froms.{attribute_breaks, mark_breaks, named_so, place_of, texts_of};
ghost use Rattle.name_seen_parts.specs.FromColumns.{known_names};
ghost use Rattle.name_seen_parts.specs.Marks.{attribute_break, first_named, is_among, places_of};

use crate::clauses::count_break;
use name_meaning::{Break, Rule};
use perm_catalog::Column;
use perm_values::{Chars, Copyable, List, NoMemory};
use sql_tree::{Name, ScopeMark};
use std::alloc::Global;

/// The first attribute that is no column or more than one, or stands twice.
pub(crate) fn mark_break(mark: &ScopeMark, columns: &[Column]) -> Result<(), Break>
    ensures { result ≡ first_or (mark_breaks mark.now (Some (known_names columns.now))) tt }
{
    match mark {
        ScopeMark::Plain => Ok(()),
        ScopeMark::BaseRelation => Ok(()),
        ScopeMark::External { attributes } => attributes_break(attributes.as_slice(), columns),
    }
}

fn attributes_break(attributes: &[Name], columns: &[Column]) -> Result<(), Break>
    ensures { result ≡ first_or (attribute_breaks (Some (known_names columns.now)) [] attributes.now) tt }
{
    for at in 0..attributes.len() {
        match attribute_break(&attributes[at], &attributes[..at], columns) {
            Ok(()) => {}
            Err(first) => return Err(first),
        }
    }
    Ok(())
}

fn attribute_break(attribute: &Name, earlier: &[Name], columns: &[Column]) -> Result<(), Break>
    ensures { result ≡ first_or (attribute_break (known_names columns.now) earlier.now attribute.now) tt }
{
    count_break(count_named(columns, &attribute.text), attribute.at)?;
    if is_among(earlier, &attribute.text) {
        return Err(Break {
            rule: Rule::RepeatedColumn,
            at: attribute.at,
        });
    }
    Ok(())
}

fn count_named(columns: &[Column], name: &Chars) -> usize
    ensures { result ≡ count_by (named_so name.now) (known_names columns.now) }
{
    columns.iter().filter(|column| *name == column.name).count()
}

fn is_among(names: &[Name], name: &Chars) -> bool
    ensures { result ≡ is_among names.now name.now }
{
    names.iter().any(|other| *name == other.text)
}

/// The texts of these names.
pub fn texts_of(alloc: Global, names: &[Name]) -> Result<List<Chars>, NoMemory>
    ensures { IfOk result (λ texts. texts ≡ texts_of names.now) }
{
    let mut texts = List::new(alloc);
    for name in names {
        texts.push(name.text.copy(alloc)?)?;
    }
    Ok(texts)
}

/// The place of the first column of each of these names; 0 where there is none.
pub fn places_of(alloc: Global, names: &[Name], columns: &[Column]) -> Result<List<usize>, NoMemory>
    ensures { IfOk result (λ places. places ≡ places_of (known_names columns.now) names.now) }
{
    let mut places = List::new(alloc);
    for name in names {
        places.push(place_of(columns, &name.text))?;
    }
    Ok(places)
}

fn place_of(columns: &[Column], name: &Chars) -> usize
    ensures { result ≡ place_of (known_names columns.now) name.now }
{
    match first_named(columns, name) {
        Some(place) => place,
        None => 0,
    }
}

fn first_named(columns: &[Column], name: &Chars) -> Option<usize>
    ensures { result ≡ first_named columns.now name.now }
{
    columns.iter().position(|column| *name == column.name)
}
