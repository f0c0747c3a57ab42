//! Under which name an item of FROM stands.
ghost use Rattle.std.specs.Prelude.{◌≡◌, ◌++◌, Some, IfOk};
ghost use Rattle.std.specs.List.{list_any};
ghost use Rattle.name_seen_parts.specs.Seen.{first_or};
ghost use Rattle.name_meaning.specs.Froms.{label_of, mark_breaks, named_so, scope_name};
ghost use Rattle.name_meaning.specs.Meanings.{broken_if};
ghost use Rattle.name_meaning.specs.Trees.{source_of};
ghost use Rattle.name_meaning.specs.declared.rule.Rule.TheVariants as rule;
ghost use Rattle.perm_catalog.specs.Contents.{Contents};
ghost use Rattle.name_seen_parts.specs.FromColumns.{known_names};

use crate::from_columns::marks::mark_break;
use name_meaning::{Break, Rule};
use perm_catalog::{Column, Names};
use perm_values::{Chars, Copyable, NoMemory};
use sql_tree::{FromItem, FromSource};
use std::alloc::Global;

/// The table's or view's name, or the subquery's alias.
pub fn label_of(alloc: Global, item: &FromItem) -> Result<Chars, NoMemory>
    ensures { (c : Contents) → IfOk result (λ label. label
        ≡ label_of (source_of c item.now.source) item.now.alias) }
{
    match &item.source {
        FromSource::Named(name) => name.text.copy(alloc),
        FromSource::Inner(_) => match &item.alias {
            Some(alias) => alias.text.copy(alloc),
            None => Chars::from_text(alloc, ""),
        },
    }
}

/// The alias, or else the table's or view's name.
pub fn scope_name(alloc: Global, item: &FromItem) -> Result<Chars, NoMemory>
    ensures { (c : Contents) → IfOk result (λ name. name
        ≡ scope_name (source_of c item.now.source) item.now.alias) }
{
    match &item.alias {
        Some(alias) => alias.text.copy(alloc),
        None => label_of(alloc, item),
    }
}

/// That an item of this name is one of those before, or what its mark breaks.
pub fn item_break(
    item: &FromItem,
    name: &Chars,
    names: &Names,
    columns: &[Column],
) -> Result<(), Break>
    ensures { result
        ≡ first_or
        (broken_if (list_any (named_so name.now) names.now.known.keys) rule.RepeatedItem item.now.at
        ++ mark_breaks item.now.mark (Some (known_names columns.now))) tt }
{
    if names.has(name) {
        return Err(Break {
            rule: Rule::RepeatedItem,
            at: item.at,
        });
    }
    mark_break(&item.mark, columns)
}
