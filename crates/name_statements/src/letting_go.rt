//! What a run lets go. It isn't taken apart in the crate that calls: how trees and queries are dropped is proved again in each
//! crate that drops one.

use name_meaning::{Resolved, Within};
use perm_catalog::Catalog;
use perm_values::List;
use sql_tree::{ExprTree, QueryTree, Statement, ValuesRow};
use std::vec::IntoIter;

/// Lets the statement go.
pub fn let_statement_go(statement: Statement) {
    drop(statement);
}

/// Lets the statements go that are left.
pub fn let_statements_go(left: IntoIter<Statement>) {
    drop(left);
}

/// Lets the query go.
pub fn let_query_go(query: QueryTree) {
    drop(query);
}

/// Lets the rows of INSERT go.
pub fn let_rows_go(rows: List<ValuesRow>) {
    drop(rows);
}

/// Lets the condition of DELETE go.
pub fn let_condition_go(condition: Option<ExprTree>) {
    drop(condition);
}

/// Lets go of what was found in an expression.
pub fn let_found_go(found: Within) {
    drop(found);
}

/// Lets a resolved statement go.
pub fn let_resolved_go(resolved: Resolved) {
    drop(resolved);
}

/// Lets a catalog go.
pub fn let_catalog_go(catalog: Catalog) {
    drop(catalog);
}
