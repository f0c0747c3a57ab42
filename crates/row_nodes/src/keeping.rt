//! What of a sublink's query may be kept from row to row.
ghost use Rattle.std.specs.Prelude.{◌≡◌, ◌↔◌, ◌^◌, ◌≤◌, [], ℕ, Some, IfNone, IsTrue};
ghost use Rattle.bag_algebra.specs.FaultFree.{faultless};
ghost use Rattle.bag_algebra.specs.declared.query.Query.{Query as SeenQuery};
ghost use Rattle.query_facts.specs.reached.Reach.{reach_of};
ghost use Rattle.row_nodes.specs.Keeping.{IsBelow, KeptOf, Leads, better, input_columns, input_depth, is_kept, keeps_input, kept_reach};

use bag_algebra::{Expr, Query, Sublink, faultless};
use query_facts::reach;

/// What of a query is kept from row to row.
#[derive(Clone, Copy, PartialEq, Eq)]
pub enum Keeping {
    /// Nothing: it is run on each row.
    Nothing,
    /// Its rows; it reads so many of the first columns and none behind them.
    Rows(usize),
    /// Its rows, and the rows that a filter is over, which reads so many of the first columns and stands so many nodes down: 0
    /// where it is the query.
    Input(usize, usize),
}

impl Keeping {
    /// How many of the first columns are read.
    pub(crate) fn reach(self) -> usize
        ensures { result ≡ kept_reach self }
    {
        match self {
            Keeping::Nothing => 0,
            Keeping::Rows(reach) => reach,
            Keeping::Input(reach, _) => reach,
        }
    }

    /// How many of the first columns the input of a filter reads, where that is kept.
    pub(crate) fn input_columns(self) -> usize
        ensures { result ≡ input_columns self }
    {
        match self {
            Keeping::Nothing => 0,
            Keeping::Rows(_) => 0,
            Keeping::Input(reach, _) => reach,
        }
    }

    /// How many nodes down the filter stands whose input is kept; 0 where none is kept.
    pub(crate) fn input_depth(self) -> usize
        ensures { result ≡ input_depth self }
    {
        match self {
            Keeping::Nothing => 0,
            Keeping::Rows(_) => 0,
            Keeping::Input(_, depth) => depth,
        }
    }

    /// Whether the input of a filter is kept.
    pub(crate) fn keeps_input(self) -> bool
        ensures { result ≡ keeps_input self }
    {
        match self {
            Keeping::Nothing => false,
            Keeping::Rows(_) => false,
            Keeping::Input(_, _) => true,
        }
    }

    /// Whether anything is kept.
    pub(crate) fn keeps(self) -> bool
        ensures { result ≡ is_kept self }
    {
        match self {
            Keeping::Nothing => false,
            Keeping::Rows(_) => true,
            Keeping::Input(_, _) => true,
        }
    }
}

/// Where there is hashing, the input of the topmost filter that a key may answer whose input reads the fewest
/// first columns, if that reads fewer than the query, and else the query's rows. Only Filters, Projects and
/// Aggregates stand above it. Nothing where no `usize` holds how many the query reads.
pub(crate) fn kept_of(is_hashed: bool, query: &Query) -> Keeping
    ensures { KeptOf is_hashed query.now result }
{
    if !is_hashed {
        return Keeping::Nothing;
    }
    match reach(query) {
        Some(whole) => least(query, 0, Keeping::Rows(whole)),
        None => Keeping::Nothing,
    }
}

/// The best so far, or of the filters from the query on, which stands so many nodes down, the topmost whose input
/// reads the fewest first columns. It goes no further down than to an input that reads none.
fn least(query: &Query, depth: usize, best: Keeping) -> Keeping
    ensures { (top : SeenQuery) → IsBelow top depth query.now → Leads top depth best
        → Leads top (2 ^ 64) result }
{
    if best.reach() == 0 {
        return best;
    }
    match query {
        Query::Filter {
            input,
            condition,
            subs,
        } => {
            let reach = input_reach(input.get(), condition, subs.as_slice());
            let best = better(best, depth, reach);
            if depth == usize::MAX {
                return best;
            }
            least(input.get(), depth + 1, best)
        }
        Query::Project { input, .. } => {
            if depth == usize::MAX {
                return best;
            }
            least(input.get(), depth + 1, best)
        }
        Query::Aggregate { input, .. } => {
            if depth == usize::MAX {
                return best;
            }
            least(input.get(), depth + 1, best)
        }
        Query::Table { .. } => best,
        Query::Single => best,
        Query::Base { .. } => best,
        Query::Join { .. } => best,
        Query::Apply { .. } => best,
        Query::Union { .. } => best,
        Query::Intersect { .. } => best,
        Query::Except { .. } => best,
        Query::Distinct { .. } => best,
        Query::Limit { .. } => best,
        Query::Prov { .. } => best,
    }
}

/// The filter at the depth, if its input reads fewer columns than are read for the best so far.
fn better(best: Keeping, depth: usize, reach: Option<usize>) -> Keeping
    ensures { result ≡ better best depth reach }
{
    match reach {
        Some(reach) => {
            if reach < best.reach() {
                Keeping::Input(reach, depth)
            } else {
                best
            }
        }
        None => best,
    }
}

/// How many of the first columns a filter's input reads, if a key may answer the filter.
fn input_reach(input: &Query, condition: &Expr, subs: &[Sublink]) -> Option<usize>
    ensures some { (n : ℕ) → result ≡ Some n →
        IsTrue (faultless condition.now) × (subs.now ≡ []) × (n ≡ reach_of input.now) }
    ensures none { IfNone result (IsTrue (faultless condition.now) → subs.now ≡ []
        → 2 ^ 64 ≤ reach_of input.now) }
{
    if can_key(condition, subs) {
        reach(input)
    } else {
        None
    }
}

/// Whether a filter may be answered by a key: its condition has no sublinks and can meet no fault.
fn can_key(condition: &Expr, subs: &[Sublink]) -> bool
    ensures { IsTrue result ↔ (IsTrue (faultless condition.now) × (subs.now ≡ [])) }
{
    faultless(condition) && subs.is_empty()
}
