//! Values, rows and their order, and the owners that contracts see as plain data.
#![tactic(auto)]

mod boxed;
mod bytes;
mod chars;
mod copyable;
mod key;
mod kind;
mod laws;
mod list;
mod no_memory;
mod room;
mod row;
mod text;
mod together;
mod value;

pub use boxed::Boxed;
pub use bytes::Bytes;
pub use chars::Chars;
pub use copyable::Copyable;
pub use key::Key;
pub use kind::Kind;
pub use laws::{order_is_total, printed_order_is_total, same_is_equality};
pub use list::List;
pub use no_memory::NoMemory;
pub use row::{Row, Rows};
pub use together::{both, boxes, four, in_box, three};
pub use value::Value;
