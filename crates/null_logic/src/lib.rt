//! Three-valued logic, comparison, arithmetic, LIKE and the table of operators.
#![tactic(auto)]

mod arith;
mod compare;
mod laws;
mod operator;
mod pattern;
mod run_fault;
mod truth;

pub use arith::{Arith, calculate, negate};
pub use compare::{Compare, compare_values};
pub use laws::{
    arithmetic_faults_have_their_causes, between_and_in_are_short_for_comparisons,
    comparisons_have_their_laws, connectives_have_their_laws, division_goes_towards_zero,
    like_has_its_laws, look_up_is_exact, operators_are_their_table,
};
pub use operator::{Needs, OPERATORS, OpRow, OpTable, Operator, is_and};
pub use pattern::like;
pub use run_fault::RunFault;
pub use truth::Truth;
