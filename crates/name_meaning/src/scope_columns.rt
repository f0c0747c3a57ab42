//! The columns in scope, in a row.
ghost use Rattle.std.specs.Prelude.{◌≡◌, ◌≤◌, ◌∷◌, ◌++◌, [], true, suc, take, drop, length, OnOk};
ghost use Rattle.name_meaning.specs.Ascending.{Ascends, Below, From};

use crate::scope::ScopeColumn;
use perm_values::{List, NoMemory};
use std::alloc::Global;
use std::marker::Model;

/// The columns of items in scope, in order, which contracts see as their list. Where the numbers of their items ascend,
/// those of an item are found by halving.
#[derive(Drop)]
pub struct ScopeColumns {
    columns: List<ScopeColumn>,
    /// The number of the last column's item, or 0.
    last: usize,
    /// Whether the numbers of the items ascend up to `last`.
    ascending: bool,
}

impl Model for ScopeColumns {
    ghost use Rattle.std.specs.Prelude.{◌≡◌, List, true};
    ghost use Rattle.name_meaning.specs.Ascending.{AscendsTo};
    ghost use Rattle.name_meaning.specs.declared.scope.ScopeColumn.{ScopeColumn};

    ghost Value = { List ScopeColumn };

    ghost view = { λ s. s.columns };

    ghost invariant = { λ s. s.ascending ≡ true → AscendsTo s.last s.columns };
}

impl ScopeColumns {
    /// No columns. It takes no memory.
    pub fn none(alloc: Global) -> ScopeColumns
        ensures { result ≡ [] }
    {
        ScopeColumns {
            columns: List::new(alloc),
            last: 0,
            ascending: true,
        }
    }

    /// The number of columns.
    pub fn len(&self) -> usize
        ensures { result ≡ length self.now }
    {
        self.columns.len()
    }

    /// The columns in order.
    pub fn as_slice(&self) -> &[ScopeColumn]
        ensures { result.now ≡ self.now }
    {
        self.columns.as_slice()
    }

    /// Adds a column at the end. It fails only for want of memory.
    pub fn push(&mut self, column: ScopeColumn) -> Result<(), NoMemory>
        ensures { OnOk result (self.new ≡ self.old ++ column ∷ []) }
    {
        let item = column.item;
        let ascending = goes_on(self.ascending, self.last, item);
        self.ascending = false;
        self.columns.push(column)?;
        self.last = item;
        self.ascending = ascending;
        Ok(())
    }

    /// Two places between which all columns of the item of this number stand, the second behind them.
    pub fn of_item(&self, number: usize) -> (usize, usize)
        ensures within { (result.0 ≤ result.1) × (result.1 ≤ length self.now) }
        ensures before { Below number (take result.0 self.now) }
        ensures behind { From (suc number) (drop result.1 self.now) }
    {
        let columns = self.columns.as_slice();
        if !self.ascending {
            return (0, columns.len());
        }
        let first = before(columns, number);
        (first, through(columns, number).max(first))
    }
}

/// Whether numbers that ascend up to the last one ascend with one more behind them.
fn goes_on(ascending: bool, last: usize, next: usize) -> bool
    ensures { result ≡ true → (ascending ≡ true) × (last ≤ next) }
{
    ascending && last <= next
}

/// How many columns stand before the first whose item has a greater number, where these ascend.
fn through(columns: &[ScopeColumn], number: usize) -> usize
    ensures within { result ≤ length columns.now }
    ensures behind { Ascends 0 columns.now → From (suc number) (drop result columns.now) }
{
    match number.checked_add(1) {
        None => columns.len(),
        Some(next) => before(columns, next),
    }
}

/// How many columns stand before the first whose item has at least this number, where these ascend.
fn before(columns: &[ScopeColumn], number: usize) -> usize
    ensures within { result ≤ length columns.now }
    ensures before { Ascends 0 columns.now → Below number (take result columns.now) }
    ensures behind { Ascends 0 columns.now → From number (drop result columns.now) }
{
    let mut low = 0;
    let mut high = columns.len();
    while low < high {
        let middle = low + (high - low) / 2;
        if columns[middle].item < number {
            low = middle + 1;
        } else {
            high = middle;
        }
    }
    low
}
