use bag_algebra::Query;
use perm_values::Rows;

/// A run of a query: the query, and its rows in the order in which they were wanted.
#[derive(Drop)]
pub struct Ran {
    pub query: Query,
    pub rows: Rows,
}
