//! How dependent joins, and nodes with sublinks over any source, are rewritten to a plain query with the rows of their
//! PROVENANCE by dependent joins: the rewritings as definitions, the laws by which they are ones, and the rules that make them.
#![tactic(auto)]

mod choices;
mod chosen;
mod contributions;
mod joins;
mod laws;
mod rules;
mod sides;

pub use choices::{Choice, choice_of};
pub use chosen::compared;
pub use joins::apply;
pub use laws::{
    dependent_joins_of_rewritings_rewrite, filters_over_dependent_joins_rewrite,
    projects_over_dependent_joins_rewrite,
};
pub use rules::{filter_lateral, join_lateral, project_lateral};
pub use sides::{chosen_provenance, valued};
