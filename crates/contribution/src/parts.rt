//! The parts that rewritten queries are built of, each with what it means: projections, filters and joins without
//! sublinks, columns in another order, rows of NULLs, and tests that columns are the same.

mod columns;
mod moving;
mod nodes;
mod nulls;
mod same;

pub use columns::{column, column_items, columns_at, regroup};
pub use moving::moved;
pub use nodes::{inwards, join_on, outwards, projection, selection, sublink_over, table};
pub use nulls::null_items;
pub use same::{always, same_columns};
