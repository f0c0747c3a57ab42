//! The steps of runs: carries out a resolved statement over a catalog that stays sound, and tells what steps add up to.

mod carrying;
mod laws;

pub use carrying::carried_out;
pub use laws::a_run_has_numbers_left;
