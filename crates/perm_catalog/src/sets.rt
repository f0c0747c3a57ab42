//! Names, looked up by hashing.

mod list;
mod names;

pub use list::NameList;
pub use names::Names;
