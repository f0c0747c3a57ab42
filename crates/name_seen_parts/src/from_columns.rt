//! What items of FROM show by their names and columns alone: what marks break about them, and the scopes that they make.

mod columns;
mod items;
mod marks;
mod scopes;

pub use columns::{kinds_of_columns, named_columns, names_of, settled_columns};
pub use items::{item_break, label_of, scope_name};
pub use marks::{places_of, texts_of};
pub use scopes::{add_item, add_items, no_items};
