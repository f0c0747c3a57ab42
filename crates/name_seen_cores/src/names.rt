//! The names of the columns of a SELECT list.
ghost use Rattle.std.specs.Prelude.{◌≡◌, ℕ, IfOk};
ghost use Rattle.name_meaning.specs.Items.{title};
ghost use Rattle.name_meaning.specs.Sublinks.{aggregate_name};
ghost use Rattle.name_meaning.specs.Trees.{part_of};
ghost use Rattle.perm_catalog.specs.Contents.{Contents};
ghost use Rattle.name_seen_cores.specs.Shown.{called_at, name_or, numbered};

use perm_values::{Chars, Copyable, NoMemory};
use sql_tree::{AggWord, ExprBody, ExprTree, Name};
use std::alloc::Global;

/// The name after AS, or else the one that the expression gives, or else one by its position.
pub(crate) fn title(
    alloc: Global,
    name: &Option<Name>,
    tree: &ExprTree,
    position: usize,
) -> Result<Chars, NoMemory>
    ensures { (c : Contents) → IfOk result (λ text. text
        ≡ name_or position (title name.now (part_of c tree.now))) }
{
    match name {
        Some(name) => name.text.copy(alloc),
        None => called(alloc, tree, position),
    }
}

/// The name that the expression gives, or else one by its position.
fn called(alloc: Global, tree: &ExprTree, position: usize) -> Result<Chars, NoMemory>
    ensures { (c : Contents) → IfOk result (λ name. name ≡ called_at c position tree.now) }
{
    match &tree.body {
        ExprBody::Column(reference) => reference.name.text.copy(alloc),
        ExprBody::Paren(part) => called(alloc, part.get(), position),
        ExprBody::Aggregate { function, .. } => aggregate_name(alloc, *function),
        _ => numbered(alloc, position),
    }
}

/// The name of a column by its position, from 1.
fn numbered(alloc: Global, position: usize) -> Result<Chars, NoMemory>
    ensures { IfOk result (λ name. name ≡ numbered position) }
{
    let mut name = String::from_str(alloc, "column")?;
    name.push_str(position.to_string(alloc)?.as_str())?;
    Chars::from_text(alloc, name.as_str())
}

fn aggregate_name(alloc: Global, word: AggWord) -> Result<Chars, NoMemory>
    ensures { IfOk result (λ name. name ≡ aggregate_name word) }
{
    match word {
        AggWord::CountRows => Chars::from_text(alloc, "count"),
        AggWord::Count => Chars::from_text(alloc, "count"),
        AggWord::CountDistinct => Chars::from_text(alloc, "count"),
        AggWord::Sum => Chars::from_text(alloc, "sum"),
        AggWord::Min => Chars::from_text(alloc, "min"),
        AggWord::Max => Chars::from_text(alloc, "max"),
    }
}
