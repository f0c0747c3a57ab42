//! Which columns of its own row an expression reads.
ghost use Rattle.std.specs.Prelude.{◌≡◌};
ghost use Rattle.simpler_laws.specs.Reads.{is_between, reads_only};
ghost use Rattle.simpler_laws.specs.built.Reads.{all_arms_read_only, all_parts_read_only};

use bag_algebra::{Arm, Expr};

/// Whether the expression holds no chain and no sublink, and reads of its own row the columns at places from the one number
/// on, before the other, and no others; outer rows it reads only where it may. It takes no memory.
#[cycle(reads_only)]
pub fn reads_only(outer: bool, from: usize, to: usize, expr: &Expr) -> bool
    ensures { result ≡ reads_only outer from to expr.now }
{
    match expr {
        Expr::Col { level, place } => {
            if *level > 0 {
                outer
            } else {
                is_between(from, to, *place)
            }
        }
        Expr::Lit { .. } => true,
        Expr::Op { parts, .. } => parts_read_only(outer, from, to, parts.as_slice()),
        Expr::Chain { .. } => false,
        Expr::Case { arms, otherwise } => {
            arms_read_only(outer, from, to, arms.as_slice())
                && reads_only(outer, from, to, otherwise.get())
        }
        Expr::Sub { .. } => false,
        Expr::IsNull { part } => reads_only(outer, from, to, part.get()),
        Expr::IsTruth { part, .. } => reads_only(outer, from, to, part.get()),
        Expr::Same { first, second } => {
            reads_only(outer, from, to, first.get()) && reads_only(outer, from, to, second.get())
        }
    }
}

fn is_between(from: usize, to: usize, place: usize) -> bool
    ensures { result ≡ is_between from to place }
{
    place >= from && place < to
}

#[cycle(reads_only)]
fn parts_read_only(outer: bool, from: usize, to: usize, parts: &[Expr]) -> bool
    ensures { result ≡ all_parts_read_only outer from to parts.now }
{
    for part in parts {
        if !reads_only(outer, from, to, part) {
            return false;
        }
    }
    true
}

#[cycle(reads_only)]
fn arms_read_only(outer: bool, from: usize, to: usize, arms: &[Arm]) -> bool
    ensures { result ≡ all_arms_read_only outer from to arms.now }
{
    for arm in arms {
        if !reads_only(outer, from, to, &arm.condition)
            || !reads_only(outer, from, to, &arm.value)
        {
            return false;
        }
    }
    true
}
