ghost use Rattle.std.specs.Prelude.{IsTrue, ◌↔◌, map, Contains};
ghost use Rattle.sql_lexer.specs.Reserved.{IsReserved};

use perm_values::Chars;

const RESERVED_WORDS: [&str; 53] = [
    "all",
    "and",
    "any",
    "as",
    "asc",
    "baserelation",
    "between",
    "by",
    "case",
    "cast",
    "create",
    "cross",
    "delete",
    "desc",
    "distinct",
    "drop",
    "else",
    "end",
    "except",
    "exists",
    "false",
    "from",
    "full",
    "group",
    "having",
    "in",
    "inner",
    "insert",
    "intersect",
    "into",
    "is",
    "join",
    "left",
    "like",
    "limit",
    "not",
    "null",
    "on",
    "or",
    "order",
    "outer",
    "provenance",
    "right",
    "select",
    "some",
    "table",
    "then",
    "true",
    "union",
    "unknown",
    "values",
    "when",
    "where",
];

fn is_listed(words: &[&str], word: &str) -> bool
    ensures { IsTrue result ↔ Contains (map (λ listed. listed.now) words.now) word.now }
{
    words.contains(&word)
}

/// Whether a word in lower case is reserved: it is a name only where it is quoted (ISO/IEC 9075-2, 'reserved word').
pub fn is_reserved(word: &Chars) -> bool
    ensures { IsTrue result ↔ IsReserved word.now }
{
    is_listed(&RESERVED_WORDS, word.as_str())
}
