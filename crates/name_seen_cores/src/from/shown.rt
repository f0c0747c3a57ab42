use crate::from::facts::Facts;
use name_seen_parts::ShownColumn;
use perm_values::List;

/// What a query shows before it is made: its columns, the places of its provenance columns where it asks for
/// provenance, and its facts.
#[derive(Drop)]
pub struct QueryShown {
    pub columns: List<ShownColumn>,
    pub places: Option<List<usize>>,
    pub facts: Facts,
}
