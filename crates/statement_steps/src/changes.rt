//! Statements that change a catalog, each with its text: CREATE, DROP, INSERT, DELETE and COPY.

mod adding;
mod copying;
mod creating;
mod deleting;
mod dropping;
mod inserting;
mod loading;
mod refusing;
mod storing;
mod text;

pub use copying::copy;
pub use creating::{create_table, create_view};
pub use deleting::delete;
pub use dropping::{drop_table, drop_view};
pub use inserting::insert;
pub use loading::RowFile;
pub use storing::{NewTable, store_answer};
pub(crate) use text::text_of;
