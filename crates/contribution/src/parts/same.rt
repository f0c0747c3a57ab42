//! The test that columns are the same, two NULLs included, and TRUE.
ghost use Rattle.std.specs.Prelude.{◌≡◌, ◌∷◌, List, IfOk, IsTrue, Some, length, slice_get};
ghost use Rattle.bag_algebra.specs.Bags.{Row};
ghost use Rattle.bag_algebra.specs.Expressions.{row_at, value};
ghost use Rattle.bag_algebra.specs.FaultFree.{faultless};
ghost use Rattle.bag_algebra.specs.Kinds.{kinds_in};
ghost use Rattle.bag_algebra.specs.Outcome.{Good};
ghost use Rattle.bag_algebra.specs.WellFormed.{HasKind};
ghost use Rattle.perm_values.specs.Rows.{picked, same_row, PlacesWithin};
ghost use Rattle.perm_values.specs.declared.kind.Kind.{Kind};
ghost use Rattle.perm_values.specs.declared.kind.Kind.TheVariants as kind;
ghost use Rattle.perm_values.specs.declared.value.Value.{Value};
ghost use Rattle.perm_values.specs.declared.value.Value.TheVariants.{Boolean};
ghost use Rattle.contribution.specs.Conjunctions.{all_hold, always, same_test, same_tests};

use bag_algebra::Expr;
use null_logic::Operator;
use perm_values::{Boxed, Kind, List, NoMemory, Value};
use std::alloc::Global;

/// Whether the columns of a row at the places `theirs` are, one by one, the same as those of the node's own row at the places
/// `own`, two NULLs included. Theirs is the node's own row at level 0, and at a higher level that outer row. The test is never
/// bad and reads no other row and no sublink, and it is a truth where the places are in range and the columns have the same
/// kinds. It fails only for want of memory.
pub fn same_columns(
    alloc: Global,
    level: usize,
    theirs: &[usize],
    own: &[usize],
) -> Result<Expr, NoMemory>
    requires { length theirs.now ≡ length own.now }
    ensures made { IfOk result (λ test. test ≡ all_hold (same_tests level theirs.now own.now)) }
    ensures value { IfOk result (λ test. (u : Row) (env : List Row) (subs : List Value) →
        value test u env subs ≡
        Good (Boolean (same_row (picked theirs.now (row_at (u ∷ env) level)) (picked own.now u)))) }
    ensures kind { IfOk result (λ test.
        (kinds others : List Kind) (outer : List (List Kind)) (subs : List Kind) →
        slice_get (kinds ∷ outer) level ≡ Some others →
        PlacesWithin (length others) theirs.now → PlacesWithin (length kinds) own.now →
        kinds_in others theirs.now ≡ kinds_in kinds own.now →
        HasKind (kinds ∷ outer) subs test kind.Boolean) }
    ensures faultless { IfOk result (λ test. IsTrue (faultless test)) }
{
    let tests = same_tests(alloc, level, theirs, own)?;
    Ok(conjunction(tests))
}

fn same_tests(
    alloc: Global,
    level: usize,
    theirs: &[usize],
    own: &[usize],
) -> Result<List<Expr>, NoMemory>
    requires { length theirs.now ≡ length own.now }
    ensures { IfOk result (λ tests. tests ≡ same_tests level theirs.now own.now) }
{
    let mut tests = List::new(alloc);
    for at in 0..theirs.len() {
        tests.push(same_test(alloc, level, theirs[at], own[at])?)?;
    }
    Ok(tests)
}

fn same_test(alloc: Global, level: usize, theirs: usize, own: usize) -> Result<Expr, NoMemory>
    ensures { IfOk result (λ test. test ≡ same_test level theirs own) }
{
    let other = Expr::Col {
        level,
        place: theirs,
    };
    let column = Expr::Col {
        level: 0,
        place: own,
    };
    let first = Boxed::new(alloc, other)?;
    let second = Boxed::new(alloc, column)?;
    Ok(Expr::Same { first, second })
}

/// All tests at once; without a test it is TRUE.
fn conjunction(tests: List<Expr>) -> Expr
    ensures { result ≡ all_hold tests }
{
    if tests.len() > 1 {
        return Expr::Op {
            op: Operator::And,
            parts: tests,
        };
    }
    let mut tests = tests;
    match tests.pop() {
        Some(test) => test,
        None => always(),
    }
}

/// TRUE.
pub fn always() -> Expr
    ensures { result ≡ always }
{
    Expr::Lit {
        value: Value::Boolean(true),
        kind: Kind::Boolean,
    }
}
