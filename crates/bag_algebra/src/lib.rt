//! Queries over bags, their expressions, and what they mean.
#![tactic(auto)]

mod children;
mod copies;
mod env;
mod expr;
mod laws;
mod measures;
mod nodes;
mod place;
mod query;
mod tables;

pub use children::Inputs;
pub use env::Env;
pub use expr::{Arm, ChainStep, Expr, Item};
pub use laws::what_fits_a_query_fits_what_reads_its_tables;
pub use measures::{
    all_fault_free, exact_width, expressions_have_one_kind, fault_free,
    fault_free_queries_meet_no_fault, faultless, faultless_expressions_meet_no_fault, height,
    is_plain, is_table, items_faultless, more_sublinks_change_nothing, over_tables, size,
    well_formed_queries_read_their_outer_rows_alone, width,
};
pub use place::Place;
pub use query::{
    AggFn, Aggr, Answer, JoinKind, JoinParts, Label, Projection, Query, Selection, SubKind, Sublink,
};
pub use tables::Tables;
