//! The conjuncts of a filter with sublinks by whether they need these.
ghost use Rattle.std.specs.Prelude.{◌≡◌, ◌++◌, filter, IfOk, IsTrue};
ghost use Rattle.simpler_laws.specs.Conjuncts.{conjuncts};
ghost use Rattle.simpler_laws.specs.Parts.{is_bound, is_free, IsParted};

use crate::columns::reads_only;
use crate::conditions::conjuncts;
use crate::pairs::add_where;
use bag_algebra::Expr;
use perm_values::{List, NoMemory, both};
use std::alloc::Global;

/// Tests below a filter, and those that it makes itself.
#[derive(Drop)]
pub struct Parts {
    pub below: List<Expr>,
    pub above: List<Expr>,
}

/// The conjuncts of a filter's condition that need no sublink, and then the tests; and the other conjuncts. It fails only for
/// want of memory.
pub fn filter_parts(alloc: Global, condition: &Expr, tests: &[Expr]) -> Result<Parts, NoMemory>
    ensures { IfOk result (λ parts. IsParted condition.now tests.now parts) }
{
    let all = conjuncts(alloc, condition)?;
    let (below, above) = both(
        free_and(alloc, all.as_slice(), tests),
        bound(alloc, all.as_slice()),
    )?;
    Ok(Parts { below, above })
}

fn free_and(alloc: Global, all: &[Expr], tests: &[Expr]) -> Result<List<Expr>, NoMemory>
    ensures { IfOk result (λ found. found ≡ filter is_free all.now ++ tests.now) }
{
    let mut found = free(alloc, all)?;
    found.append(List::copy_of(alloc, tests)?)?;
    Ok(found)
}

fn free(alloc: Global, all: &[Expr]) -> Result<List<Expr>, NoMemory>
    ensures { IfOk result (λ found. found ≡ filter is_free all.now) }
{
    let mut found = List::new(alloc);
    for test in all {
        let goes = reads_only(true, 0, usize::MAX, test);
        add_where(alloc, &mut found, goes, test)?;
    }
    Ok(found)
}

fn bound(alloc: Global, all: &[Expr]) -> Result<List<Expr>, NoMemory>
    ensures { IfOk result (λ found. found ≡ filter is_bound all.now) }
{
    let mut found = List::new(alloc);
    for test in all {
        let goes = !reads_only(true, 0, usize::MAX, test);
        add_where(alloc, &mut found, goes, test)?;
    }
    Ok(found)
}
