//! The tables and views of a database by name, their rows, identities and versions; and names that are looked up by hashing.
#![tactic(auto)]

mod catalog;
mod column;
mod drop_held;
mod entries;
mod last;
mod renew;
mod sets;

pub use catalog::{Catalog, CatalogRefusal};
pub use column::Column;
pub use entries::{SourceVersion, StoredQuery, TableEntry, ViewEntry};
pub use sets::{NameList, Names};
