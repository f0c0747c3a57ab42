//! Laws of the definition of name analysis: what it makes reads tables of the catalog alone.

mod laws;

pub use laws::{tables_fit_queries, views_name_what_they_read};
