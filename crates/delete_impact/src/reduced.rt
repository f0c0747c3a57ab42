//! What a deletion is answered by: whether a query reads a table, the query over some of its rows, the rows that are missing over
//! what is left of it, and when no further fault is met there.

mod hiding;
mod missing_rows;
mod reads;
mod some_rows;
mod splitting;

pub use hiding::hides_none;
pub use missing_rows::{behind, missing, missing_part};
pub use reads::first_kinds;
pub use some_rows::{over_rows, reduced};
pub use splitting::splits;
