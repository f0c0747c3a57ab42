//! Items of FROM, and what joins them.
ghost use Rattle.std.specs.Prelude.{◌≡◌, ◌≤◌, ℕ, ◌+◌, ◌^◌, suc, List, [], length, IfOk, IfErr, IsOkAnd};
ghost use Rattle.std.specs.Option.{option_map_or};
ghost use Rattle.bag_algebra.specs.Kinds.{width_of};
ghost use Rattle.bag_algebra.specs.declared.query.Query.TheVariants.{Apply, Single};
ghost use Rattle.perm_catalog.specs.Sound.{IsSound};
ghost use Rattle.name_meaning.specs.Froms.{external, join_kind, marked, read_named, read_names, read_query, read_table, read_view};
ghost use Rattle.name_meaning.specs.Meanings.{QueryMeant};
ghost use Rattle.name_made_parts.specs.Sources.{Shows, beside_left, join_count, join_on_kept, kept_or_yes, read_viewed, text_of};

use crate::asked::{MadeCondition, condition_of, nothing_kept};
use crate::shown::ShownNames;
use bag_algebra::{JoinKind, Query};
use name_meaning::{
    Condition, attributes_of, beside, column_names, external, table_plain, table_rows, truth_value,
    whole_source,
};
use perm_catalog::{Catalog, TableEntry, ViewEntry};
use perm_values::{Chars, Copyable, List, NoMemory, both};
use sql_tree::{FromTree, JoinWord, Name, ScopeMark};
use std::alloc::Global;

/// The table or view of this name as FROM reads it under the mark; what has no such name is of no account.
pub fn named_item(
    alloc: Global,
    catalog: &Catalog,
    name: &Name,
    mark: &ScopeMark,
) -> Result<Query, NoMemory>
    requires { IsSound catalog.now }
    ensures { IfOk result (λ made. (read_named catalog.now name.now).breaks ≡ []
        → made ≡ marked mark.now name.now.text
        (read_names (read_named catalog.now name.now)) (read_named catalog.now name.now)) }
{
    match catalog.table(&name.text) {
        Some(table) => table_item(alloc, &name.text, table, mark),
        None => viewed_item(alloc, catalog, name, mark),
    }
}

/// The view of this name under the mark.
fn viewed_item(
    alloc: Global,
    catalog: &Catalog,
    name: &Name,
    mark: &ScopeMark,
) -> Result<Query, NoMemory>
    requires { IsSound catalog.now }
    ensures { IfOk result (λ made. (read_viewed catalog.now name.now).breaks ≡ []
        → made ≡ marked mark.now name.now.text
        (read_names (read_viewed catalog.now name.now)) (read_viewed catalog.now name.now)) }
{
    match catalog.view(&name.text) {
        Some(view) => view_item(alloc, &name.text, view, mark),
        None => Ok(Query::Single),
    }
}

fn table_item(
    alloc: Global,
    name: &Chars,
    table: &TableEntry,
    mark: &ScopeMark,
) -> Result<Query, NoMemory>
    ensures { IfOk result (λ made. made ≡ marked mark.now name.now
        (read_names (read_table name.now table.now)) (read_table name.now table.now)) }
{
    match mark {
        ScopeMark::Plain => table_plain(alloc, name, table),
        ScopeMark::BaseRelation => {
            let names = column_names(alloc, table.columns.as_slice())?;
            let rows = table_rows(alloc, table)?;
            whole_source(alloc, rows, name, names)
        }
        ScopeMark::External { attributes } => {
            let names = column_names(alloc, table.columns.as_slice())?;
            let rows = table_rows(alloc, table)?;
            attributes_of(alloc, rows, names.as_slice(), attributes.as_slice())
        }
    }
}

/// A view under the mark, its query copied.
fn view_item(
    alloc: Global,
    name: &Chars,
    view: &ViewEntry,
    mark: &ScopeMark,
) -> Result<Query, NoMemory>
    requires { length view.now.answer.names ≡ width_of view.now.answer.query }
    ensures { IfOk result (λ made. made ≡ marked mark.now name.now
        (read_names (read_view name.now view.now)) (read_view name.now view.now)) }
{
    let query = view.answer.query.copy(alloc)?;
    match mark {
        ScopeMark::Plain => view_plain(alloc, query, view),
        ScopeMark::BaseRelation => {
            let Ok(names) = view.answer.names.copy(alloc) else {
                drop(query);
                return Err(NoMemory);
            };
            whole_source(alloc, query, name, names)
        }
        ScopeMark::External { attributes } => {
            let names = view.answer.names.as_slice();
            attributes_of(alloc, query, names, attributes.as_slice())
        }
    }
}

/// The view's query, a source of its provenance columns where it has any.
fn view_plain(alloc: Global, query: Query, view: &ViewEntry) -> Result<Query, NoMemory>
    ensures { query ≡ view.now.answer.query
        → IfOk result (λ made. (name : List ℕ) → made ≡ (read_view name view.now).plain) }
{
    match &view.places {
        None => Ok(query),
        Some(places) => external(
            alloc,
            query,
            view.answer.names.as_slice(),
            places.as_slice(),
        ),
    }
}

/// A subquery under the mark.
pub fn marked_of(
    alloc: Global,
    query: Result<Query, NoMemory>,
    shown: ShownNames,
    alias: &Option<Name>,
    mark: &ScopeMark,
) -> Result<Query, NoMemory>
    ensures { IfOk result (λ made. IsOkAnd query (λ query.
        (m : QueryMeant) → m.breaks ≡ [] → Shows m shown → query ≡ m.make []
        → made ≡ marked mark.now (option_map_or text_of alias.now [])
        (read_names (read_query m)) (read_query m))) }
{
    let (shown, query) = beside(shown, query)?;
    match mark {
        ScopeMark::Plain => shown_plain(alloc, query, shown),
        ScopeMark::BaseRelation => {
            let (query, label) = beside(query, alias_text(alloc, alias))?;
            let ShownNames { names, .. } = shown;
            whole_source(alloc, query, &label, names)
        }
        ScopeMark::External { attributes } => {
            attributes_of(alloc, query, shown.names.as_slice(), attributes.as_slice())
        }
    }
}

/// The query, a source of its provenance columns where it asks for provenance.
fn shown_plain(alloc: Global, query: Query, shown: ShownNames) -> Result<Query, NoMemory>
    ensures { IfOk result (λ made. made ≡ option_map_or (external query shown.names) shown.places query) }
{
    match &shown.places {
        None => Ok(query),
        Some(places) => external(alloc, query, shown.names.as_slice(), places.as_slice()),
    }
}

fn alias_text(alloc: Global, alias: &Option<Name>) -> Result<Chars, NoMemory>
    ensures { IfOk result (λ text. text ≡ option_map_or text_of alias.now []) }
{
    match alias {
        None => Chars::from_text(alloc, ""),
        Some(name) => name.text.copy(alloc),
    }
}

/// How a join keeps rows.
pub fn join_kind(word: JoinWord) -> JoinKind
    ensures { result ≡ join_kind word }
{
    match word {
        JoinWord::Inner => JoinKind::Inner,
        JoinWord::Left => JoinKind::Left,
        JoinWord::Right => JoinKind::Right,
        JoinWord::Full => JoinKind::Full,
        JoinWord::Cross => JoinKind::Inner,
        JoinWord::CrossLateral => JoinKind::Inner,
        JoinWord::LeftLateral => JoinKind::Left,
    }
}

/// A join with what stands before it.
pub fn with_right(
    alloc: Global,
    kind: JoinKind,
    whole: Query,
    right: Result<Query, NoMemory>,
    kept: Result<MadeCondition, NoMemory>,
) -> Result<Query, NoMemory>
    ensures { IfOk result (λ made. IsOkAnd right (λ right. IsOkAnd kept (λ kept.
        made ≡ join_on_kept kind whole right kept))) }
{
    let both_made = both(right, kept);
    let (whole, (right, kept)) = beside(whole, both_made)?;
    let Condition { expr, subs } = kept_or_yes(alloc, kept);
    Query::join(alloc, kind, whole, right, expr, subs)
}

/// A lateral subquery beside each row of what stands before it.
pub fn with_lateral(
    alloc: Global,
    kind: JoinKind,
    whole: Query,
    right: Result<Query, NoMemory>,
) -> Result<Query, NoMemory>
    ensures { IfOk result (λ made. IsOkAnd right (λ right. made ≡ Apply kind whole right)) }
{
    let (whole, right) = beside(whole, right)?;
    Query::apply(alloc, kind, whole, right)
}

/// The condition that is kept; TRUE, if there is none.
fn kept_or_yes(alloc: Global, kept: MadeCondition) -> Condition
    ensures { result ≡ kept_or_yes kept.condition }
{
    match condition_of(kept) {
        None => Condition {
            expr: truth_value(true),
            subs: List::new(alloc),
        },
        Some(condition) => condition,
    }
}

/// What is behind a comma, beside what is before it.
pub fn with_next(
    alloc: Global,
    whole: Option<Query>,
    next: Result<Query, NoMemory>,
) -> Result<Query, NoMemory>
    ensures { IfOk result (λ made. IsOkAnd next (λ next. made ≡ beside_left whole next)) }
{
    let (whole, next) = beside(whole, next)?;
    match whole {
        None => Ok(next),
        Some(whole) => with_right(
            alloc,
            JoinKind::Inner,
            whole,
            Ok(next),
            Ok(nothing_kept(alloc)),
        ),
    }
}

/// What is before the end of FROM; one row without columns, if nothing is.
pub fn input_or_single(whole: Option<Query>) -> Query
    ensures { result ≡ option_map_or (λ query. query) whole Single }
{
    match whole {
        None => Query::Single,
        Some(query) => query,
    }
}

/// How many items stand before what comes behind this part of FROM. It fails exactly where no `usize` holds their number.
pub fn behind(first: usize, source: &FromTree) -> Result<usize, NoMemory>
    ensures next { IfOk result (λ next. next ≡ first + suc (join_count source.now)) }
    ensures lacking { IfErr result (λ _. 2 ^ 64 ≤ first + suc (join_count source.now)) }
{
    match first.checked_add(source.joins.len() + 1) {
        Some(next) => Ok(next),
        None => Err(NoMemory),
    }
}
