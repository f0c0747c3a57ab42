//! What a query shows before it is made: its columns, and the facts that its provenance rests on; and what the items of
//! FROM read.

mod facts;
mod items;
mod marks;
mod reading;
mod shown;
mod viewed;

pub use facts::Facts;
pub use items::put_item;
pub use reading::{Reading, read_named, read_shown};
pub use shown::QueryShown;
pub use viewed::facts_of;
