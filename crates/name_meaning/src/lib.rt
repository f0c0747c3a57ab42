//! What the names and kinds of a statement mean: the definition of the resolved statement and of all its breaks.
#![tactic(auto)]

mod answer;
mod columns;
mod kinds;
mod laws;
mod need;
mod nodes;
mod rule;
mod scope;
mod scope_columns;

pub use answer::{Break, Resolved};
pub use columns::names_at;
pub use kinds::{aggregate_kind, settled};
pub use laws::{
    expressions_are_well_formed, expressions_keep_their_facts, from_is_known,
    impacts_can_be_answered, outermost_queries_are_closed, queries_are_answers,
    queries_are_well_formed, queries_have_a_column, queries_have_their_kinds,
    queries_keep_their_facts, tables_fit_queries, views_name_what_they_read,
};
pub use need::{Gives, Need};
pub use nodes::{
    Clauses, Condition, Listed, Within, add_value, aggregate_of, alike_wanted, argument_wanted,
    arm_of, attributes_of, beside, between, case, chain_start, chained, column_made, column_names,
    core_of, count_made, external, finished_of, in_kind, in_list, in_list_kind, integer_value,
    like, null_at, null_tested, on_parts, on_two, repeated, same_tested, step_of, sublink_of,
    table_plain, table_rows, text_value, truth_tested, truth_value, wanted_of, whole_source,
    with_more, with_operand,
};
pub use rule::Rule;
pub use scope::{Found, FoundColumn, Scope, ScopeColumn};
pub use scope_columns::ScopeColumns;
