//! Rows of which some are left out, where they lie.
ghost use Rattle.std.specs.Prelude.{◌≡◌, None, Some, IfOk, filter, get_or, length, not, true};
ghost use Rattle.std.specs.Option.{option_copied};
ghost use Rattle.row_nodes.specs.results.Screened.{HasFlags, is_out, row_left, rows_left};

use crate::input::Input;
use perm_values::{List, NoMemory, Row};
use std::alloc::Global;

/// Rows, and which of them are left out.
#[derive(Drop)]
pub struct Screened<'a> {
    rows: Input<'a>,
    /// A flag for each row, set where it is left out; `None` where no row is.
    doomed: Option<List<bool>>,
}

impl<'a> Screened<'a> {
    /// All of the rows. It takes no memory.
    pub fn whole(rows: Input<'a>) -> Screened<'a>
        ensures { (result.rows ≡ rows.entry) × (result.doomed ≡ None) }
    {
        Screened { rows, doomed: None }
    }

    /// The rows whose flag isn't set. It takes no memory.
    pub fn flagged(rows: Input<'a>, doomed: List<bool>) -> Screened<'a>
        ensures { (result.rows ≡ rows.entry) × (result.doomed ≡ Some doomed) }
    {
        Screened {
            rows,
            doomed: Some(doomed),
        }
    }

    /// How many rows there are, with those that are left out. It takes no memory.
    pub fn places(&self) -> usize
        ensures { result ≡ length self.now.rows }
    {
        self.rows.len()
    }

    /// How many rows are left, where each has a flag. It takes no memory.
    pub fn len(&self) -> usize
        ensures { HasFlags self.now → result ≡ length (rows_left self.now) }
    {
        match &self.doomed {
            Some(flags) => unset(flags.as_slice()),
            None => self.rows.len(),
        }
    }

    /// The row at a place, where it lies; `None` where it is left out, and out of range.
    pub fn row(&self, at: usize) -> Option<&Row>
        ensures { option_copied result ≡ row_left self.now at }
    {
        if self.leaves_out(at) {
            return None;
        }
        self.rows.as_slice().get(at)
    }

    fn leaves_out(&self, at: usize) -> bool
        ensures { result ≡ is_out self.now.doomed at }
    {
        match &self.doomed {
            Some(flags) => flag(flags.as_slice(), at),
            None => false,
        }
    }

    /// The rows that are left: made ones themselves, of stored ones copies unless none is left out. It fails only for want
    /// of memory.
    pub fn into_input(self, alloc: Global) -> Result<Input<'a>, NoMemory>
        requires { HasFlags self }
        ensures { IfOk result (λ rows. rows ≡ rows_left self.entry) }
    {
        let Screened { rows, doomed } = self;
        match doomed {
            Some(flags) => Ok(Input::made(rows.without(alloc, flags.as_slice())?)),
            None => Ok(rows),
        }
    }
}

/// How many flags aren't set.
fn unset(flags: &[bool]) -> usize
    ensures { result ≡ length (filter not flags.now) }
{
    flags.iter().filter(|flag| !**flag).count()
}

/// The flag at a place; out of range it is set.
fn flag(flags: &[bool], at: usize) -> bool
    ensures { result ≡ get_or flags.now at true }
{
    match flags.get(at) {
        Some(flag) => *flag,
        None => true,
    }
}
