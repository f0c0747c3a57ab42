//! The first rule of names and kinds that a statement breaks outside its queries.

mod conditions;
mod names;
mod shown;
mod values;

pub use conditions::{delete_break, table_scope};
pub use names::{repeated_columns, table_limit, taken, unknown_table, unknown_view, used};
pub use shown::{boolean_break, repeats_break};
pub use values::{alone, rows_break};
