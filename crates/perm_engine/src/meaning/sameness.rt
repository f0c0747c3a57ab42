//! Laws of runs: a script that isn't spelled has one break, and over files whose bytes are told and of which none fails a
//! command line has one run.

mod laws;

pub use laws::{a_misspelling_has_one_break, told_files_have_one_run};
