use crate::query::Label;
use perm_values::{Kind, List};

/// A place of provenance: the label of its source, and the kinds of its columns.
#[derive(Drop)]
pub struct Place {
    pub label: Label,
    pub kinds: List<Kind>,
}
