//! Queries over a table of an integer and a text and one of integers, and what they are made of.
ghost use Rattle.std.specs.Prelude.{◌≡◌, [], ◌∷◌, IfOk};

use bag_algebra::{Expr, Item, Label, Query, SubKind, Sublink};
use null_logic::{Compare, Operator};
use perm_values::{Kind, List, NoMemory, Value, both, three};
use std::alloc::Global;

pub(crate) fn only_item<T: Drop>(alloc: Global, item: T) -> Result<List<T>, NoMemory>
    ensures { IfOk result (λ list. list ≡ item ∷ []) }
{
    let mut list = List::new(alloc);
    list.push(item)?;
    Ok(list)
}

fn two_items<T: Drop>(
    alloc: Global,
    first: Result<T, NoMemory>,
    second: Result<T, NoMemory>,
) -> Result<List<T>, NoMemory> {
    let (first, second) = both(first, second)?;
    let mut list = List::new(alloc);
    list.push(first)?;
    list.push(second)?;
    Ok(list)
}

/// The column of the node's own row.
pub(crate) fn own(place: usize) -> Expr {
    Expr::Col { level: 0, place }
}

/// The column of the nearest outer row, or of one further out.
pub(crate) fn outer(level: usize, place: usize) -> Expr {
    Expr::Col { level, place }
}

pub(crate) fn compared(
    alloc: Global,
    how: Compare,
    first: Expr,
    second: Expr,
) -> Result<Expr, NoMemory> {
    let parts = two_items(alloc, Ok(first), Ok(second))?;
    Ok(Expr::Op {
        op: Operator::Compare(how),
        parts,
    })
}

pub(crate) fn all_of(
    alloc: Global,
    first: Result<Expr, NoMemory>,
    second: Result<Expr, NoMemory>,
) -> Result<Expr, NoMemory> {
    let parts = two_items(alloc, first, second)?;
    Ok(Expr::Op {
        op: Operator::And,
        parts,
    })
}

pub(crate) fn negated(alloc: Global, part: Expr) -> Result<Expr, NoMemory> {
    let parts = only_item(alloc, part)?;
    Ok(Expr::Op {
        op: Operator::Not,
        parts,
    })
}

/// The query as a source of its first columns, one for each kind.
fn source_of(
    alloc: Global,
    query: Result<Query, NoMemory>,
    width: usize,
) -> Result<Query, NoMemory> {
    let (query, places) = both(query, List::range(alloc, 0, width))?;
    let columns = List::new(alloc);
    Query::base(alloc, query, places, Label::External { columns })
}

fn table(alloc: Global, id: u64, kinds: &[Kind]) -> Result<Query, NoMemory> {
    let kinds = List::copy_of(alloc, kinds)?;
    Ok(Query::Table { id, kinds })
}

/// The table of an integer and a text as a source.
pub(crate) fn first_table(alloc: Global) -> Result<Query, NoMemory> {
    let kinds = [Kind::Integer, Kind::Text];
    source_of(alloc, table(alloc, 1, kinds.as_slice()), 2)
}

/// The table of integers as a source.
pub(crate) fn second_table(alloc: Global) -> Result<Query, NoMemory> {
    source_of(alloc, table(alloc, 2, [Kind::Integer].as_slice()), 1)
}

/// The integers that are greater than 1 as a source, which is no table.
pub(crate) fn second_view(alloc: Global) -> Result<Query, NoMemory> {
    let one = Expr::Lit {
        value: Value::Integer(1),
        kind: Kind::Integer,
    };
    let rows = table(alloc, 2, [Kind::Integer].as_slice());
    let condition = compared(alloc, Compare::Greater, own(0), one);
    source_of(
        alloc,
        chosen(alloc, rows, condition, Ok(List::new(alloc))),
        1,
    )
}

/// The rows on which the condition is true.
pub(crate) fn chosen(
    alloc: Global,
    rows: Result<Query, NoMemory>,
    condition: Result<Expr, NoMemory>,
    subs: Result<List<Sublink>, NoMemory>,
) -> Result<Query, NoMemory> {
    let (rows, condition, subs) = three(rows, condition, subs)?;
    Query::filter(alloc, rows, condition, subs)
}

/// Whether there is a row.
pub(crate) fn exists(query: Result<Query, NoMemory>) -> Result<Sublink, NoMemory> {
    let query = query?;
    Ok(Sublink {
        kind: SubKind::Exists,
        tested: None,
        query,
    })
}

/// The own column, compared with the rows.
pub(crate) fn column_compared(
    kind: SubKind,
    place: usize,
    query: Result<Query, NoMemory>,
) -> Result<Sublink, NoMemory> {
    let query = query?;
    Ok(Sublink {
        kind,
        tested: Some(own(place)),
        query,
    })
}

pub(crate) fn only_sublink(
    alloc: Global,
    sub: Result<Sublink, NoMemory>,
) -> Result<List<Sublink>, NoMemory> {
    only_item(alloc, sub?)
}

/// The first column as the only item.
pub(crate) fn first_column(alloc: Global) -> Result<List<Item>, NoMemory> {
    only_item(
        alloc,
        Item {
            expr: own(0),
            kind: Kind::Integer,
        },
    )
}

/// The first column, and the truth of the sublink.
pub(crate) fn first_column_and_sublink(alloc: Global) -> Result<List<Item>, NoMemory> {
    let column = Item {
        expr: own(0),
        kind: Kind::Integer,
    };
    let truth = Item {
        expr: Expr::Sub { number: 0 },
        kind: Kind::Boolean,
    };
    two_items(alloc, Ok(column), Ok(truth))
}
