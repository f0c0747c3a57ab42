//! What a node gives for what its inputs gave: rows, or an error.

mod nodes;
mod screened;

pub use nodes::{
    distinct_rows, except_rows, group_rows, intersect_rows, kept_rows, limit_rows, union_rows,
    whole_rows,
};
pub use screened::Screened;
