//! Marks of FROM: how far the provenance of an item is followed.
ghost use Rattle.std.specs.Prelude.{◌≡◌, IfOk};
ghost use Rattle.bag_algebra.specs.Kinds.{kinds_in};
ghost use Rattle.bag_algebra.specs.declared.query.Label.TheVariants.{External};
ghost use Rattle.name_meaning.specs.laws.Facts.{source_facts};
ghost use Rattle.name_meaning.specs.Froms.{label_of, texts_of};
ghost use Rattle.name_meaning.specs.Trees.{source_of};
ghost use Rattle.perm_catalog.specs.Contents.{Contents};
ghost use Rattle.name_seen_cores.specs.from.Added.{facts_in};
ghost use Rattle.name_seen_parts.specs.FromColumns.{known_names};
ghost use Rattle.name_seen_parts.specs.Marks.{places_of};
ghost use Rattle.name_seen_cores.specs.from.Marks.{IsMarked};
ghost use Rattle.name_seen_cores.specs.from.Readings.{relation_facts};

use crate::from::facts::Facts;
use crate::from::reading::{Reading, relation};
use bag_algebra::{Label, Place};
use contribution::kinds_at;
use name_seen_parts::{label_of, names_of, places_of, texts_of};
use perm_values::NoMemory;
use sql_tree::{FromItem, Name, ScopeMark};
use std::alloc::Global;

/// What an item gives of what it reads: its facts are those of its mark.
pub(crate) fn with_mark(
    alloc: Global,
    item: &FromItem,
    reading: Reading,
) -> Result<Reading, NoMemory>
    ensures { (c : Contents) → IfOk result
        (IsMarked item.now.mark (label_of (source_of c item.now.source) item.now.alias) reading) }
{
    match &item.mark {
        ScopeMark::Plain => Ok(reading),
        ScopeMark::BaseRelation => {
            let whole = labelled(alloc, item, &reading)?;
            Ok(reading.with(whole))
        }
        ScopeMark::External { attributes } => {
            let own = attributed(alloc, attributes.as_slice(), &reading)?;
            Ok(reading.with(own))
        }
    }
}

/// The facts of a source of all columns of what an item reads.
fn labelled(alloc: Global, item: &FromItem, reading: &Reading) -> Result<Facts, NoMemory>
    ensures { (c : Contents) → IfOk result (λ facts. facts_in facts ≡
        relation_facts (label_of (source_of c item.now.source) item.now.alias)
        (known_names reading.now.columns) reading.now.kinds) }
{
    let label = label_of(alloc, item)?;
    let names = names_of(alloc, reading.columns.as_slice())?;
    relation(alloc, &label, names, reading.kinds.as_slice())
}

/// The facts of a source of these attributes.
fn attributed(alloc: Global, attributes: &[Name], reading: &Reading) -> Result<Facts, NoMemory>
    ensures { IfOk result (λ facts. facts_in facts ≡ source_facts
        (record {
          label = External (texts_of attributes.now);
          kinds = kinds_in reading.now.kinds
              (places_of (known_names reading.now.columns) attributes.now);
        })) }
{
    let places = places_of(alloc, attributes, reading.columns.as_slice())?;
    let kinds = kinds_at(alloc, reading.kinds.as_slice(), places.as_slice())?;
    let label = Label::External {
        columns: texts_of(alloc, attributes)?,
    };
    Facts::of_source(alloc, Place { label, kinds })
}
