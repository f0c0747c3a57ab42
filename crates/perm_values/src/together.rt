//! Results and boxes taken together. The functions are generic, so that what is let go where one of several is wanting isn't
//! taken apart in each function that needs them.
ghost use Rattle.std.specs.Prelude.{◌≡◌, ◌⊎◌, Ok, Err, IfOk, IfErr};

use crate::{Boxed, NoMemory};
use std::alloc::Global;

/// Both, where neither failed.
pub fn both<A: Drop, B: Drop>(
    first: Result<A, NoMemory>,
    second: Result<B, NoMemory>,
) -> Result<(A, B), NoMemory>
    ensures first_was { IfOk result (λ pair. first ≡ Ok pair.0) }
    ensures second_was { IfOk result (λ pair. second ≡ Ok pair.1) }
    ensures lacking { IfErr result (λ lack. (first ≡ Err lack) ⊎ (second ≡ Err lack)) }
{
    let first = first?;
    let second = second?;
    Ok((first, second))
}

/// All three, where none failed.
pub fn three<A: Drop, B: Drop, C: Drop>(
    first: Result<A, NoMemory>,
    second: Result<B, NoMemory>,
    third: Result<C, NoMemory>,
) -> Result<(A, B, C), NoMemory>
    ensures first_was { IfOk result (λ all. first ≡ Ok all.0) }
    ensures second_was { IfOk result (λ all. second ≡ Ok all.1) }
    ensures third_was { IfOk result (λ all. third ≡ Ok all.2) }
    ensures lacking { IfErr result (λ lack. (first ≡ Err lack) ⊎ ((second ≡ Err lack) ⊎ (third ≡ Err lack))) }
{
    let first = first?;
    let second = second?;
    let third = third?;
    Ok((first, second, third))
}

/// All four, where none failed.
pub fn four<A: Drop, B: Drop, C: Drop, D: Drop>(
    first: Result<A, NoMemory>,
    second: Result<B, NoMemory>,
    third: Result<C, NoMemory>,
    fourth: Result<D, NoMemory>,
) -> Result<(A, B, C, D), NoMemory>
    ensures first_was { IfOk result (λ all. first ≡ Ok all.0) }
    ensures second_was { IfOk result (λ all. second ≡ Ok all.1) }
    ensures third_was { IfOk result (λ all. third ≡ Ok all.2) }
    ensures fourth_was { IfOk result (λ all. fourth ≡ Ok all.3) }
    ensures lacking { IfErr result
        (λ lack. (first ≡ Err lack) ⊎ ((second ≡ Err lack) ⊎ ((third ≡ Err lack) ⊎ (fourth ≡ Err lack)))) }
{
    let first = first?;
    let second = second?;
    let third = third?;
    let fourth = fourth?;
    Ok((first, second, third, fourth))
}

/// What is there in a box. It fails only for want of memory.
pub fn in_box<T: Drop>(alloc: Global, part: Result<T, NoMemory>) -> Result<Boxed<T>, NoMemory>
    ensures { IfOk result (λ boxed. part ≡ Ok boxed) }
{
    Boxed::new(alloc, part?)
}

/// Each in a box. It fails only for want of memory.
pub fn boxes<A: Drop, B: Drop>(
    alloc: Global,
    first: A,
    second: B,
) -> Result<(Boxed<A>, Boxed<B>), NoMemory>
    ensures first_kept { IfOk result (λ pair. pair.0 ≡ first) }
    ensures second_kept { IfOk result (λ pair. pair.1 ≡ second) }
{
    let first = Boxed::new(alloc, first)?;
    let second = Boxed::new(alloc, second)?;
    Ok((first, second))
}
