//! What is tried at a place: a text for each sort of tokens that the grammar tells apart.

/// A name, a number and a text.
pub(crate) const VALUES: [&str; 3] = ["x", "1", "''"];

/// The reserved words, those first that begin a statement or a clause.
pub(crate) const WORDS: [&str; 53] = [
    "SELECT",
    "FROM",
    "WHERE",
    "GROUP",
    "HAVING",
    "ORDER",
    "LIMIT",
    "CREATE",
    "INSERT",
    "DELETE",
    "DROP",
    "TABLE",
    "INTO",
    "VALUES",
    "AS",
    "ON",
    "BY",
    "JOIN",
    "AND",
    "OR",
    "NOT",
    "IS",
    "IN",
    "BETWEEN",
    "LIKE",
    "NULL",
    "CASE",
    "WHEN",
    "THEN",
    "ELSE",
    "END",
    "EXISTS",
    "CAST",
    "TRUE",
    "FALSE",
    "UNKNOWN",
    "DISTINCT",
    "ALL",
    "ANY",
    "SOME",
    "ASC",
    "DESC",
    "UNION",
    "INTERSECT",
    "EXCEPT",
    "LEFT",
    "RIGHT",
    "FULL",
    "INNER",
    "OUTER",
    "CROSS",
    "PROVENANCE",
    "BASERELATION",
];

/// The words that may be names.
pub(crate) const NAMES: [&str; 21] = [
    "COPY", "EXPLAIN", "SHOW", "IMPACT", "VIEW", "REWRITE", "FRESH", "HEADER", "OF", "LATERAL",
    "INTEGER", "TEXT", "INT", "BIGINT", "BOOLEAN", "COUNT", "SUM", "MIN", "MAX", "COALESCE",
    "NULLIF",
];

pub(crate) const OPERATORS: [&str; 11] = ["=", "<>", "<", "<=", ">", ">=", "+", "-", "*", "/", "%"];

pub(crate) const MARKS: [&str; 5] = ["(", ")", ",", ".", ";"];
