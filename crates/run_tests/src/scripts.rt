//! Which texts are scripts, or the offset of the first token with which they begin none: what runs of them answer
//! (`sql_lexer`, `sql_parser`, by `perm_engine`).
use crate::runs::{Ended, Given, run};
use perm_engine::Status;
use perm_values::NoMemory;
use std::alloc::Global;
use std::test::Fail;

fn answered(alloc: Global, text: &str) -> Result<Ended, NoMemory> {
    let given = Given {
        words: &["s"],
        script: text.as_bytes(),
        rows: b"",
        reads: &[],
        writes: &[],
        room: 200,
    };
    run(alloc, &given)
}

/// Texts that are scripts, whatever becomes of their statements.
const SCRIPTS: [&str; 15] = [
    "",
    ";;",
    "SELECT 1; SELECT 2;",
    ";SELECT 1;;SELECT 2",
    "SELECT 1a",
    "select \"\" FROM \"order\"",
    "SELECT - -1",
    "SELECT PROVENANCE DISTINCT a FROM t",
    "SELECT count, sum.a, coalesce FROM count, sum",
    "SELECT COUNT (*), SUM(a) FROM view",
    "SELECT a FROM (SELECT 1) x",
    "INSERT INTO t VALUES ((SELECT 1))",
    "SELECT a IN ((SELECT 1)) FROM t",
    "(SELECT 1) UNION SELECT 2",
    "SELECT NOT NOT a = b FROM t",
];

#[test]
fn scripts_are_read(rt: HostRuntime) -> Result<(), Fail> {
    for text in SCRIPTS {
        let ended = answered(rt.alloc(), text)?;
        assert_ne!(rt; ended.status, Status::Syntax, "{text}");
    }
    Ok(())
}

/// Texts with the line that names the first token with which they begin no script.
const MISSPELLED: [(&str, &str); 33] = [
    ("SELECT 1.5", "error E05 at 8\n"),
    ("SELECT --1", "error E05 at 10\n"),
    ("VALUES (1)", "error E05 at 0\n"),
    ("SELECT 1 SELECT 2", "error E05 at 9\n"),
    ("SELECT a FROM r UNION", "error E05 at 21\n"),
    ("SELECT a FROM t LIMIT 1 ORDER BY a", "error E05 at 24\n"),
    ("SELECT a FROM t LIMIT -1", "error E05 at 22\n"),
    ("CREATE TABLE t ()", "error E05 at 16\n"),
    ("CREATE TABLE t (a BOOLEAN)", "error E05 at 18\n"),
    ("SELECT DISTINCT PROVENANCE a FROM t", "error E05 at 16\n"),
    ("SELECT COUNT(DISTINCT *)", "error E05 at 22\n"),
    ("SELECT a FROM order", "error E05 at 14\n"),
    ("SELECT a AS select FROM t", "error E05 at 12\n"),
    ("SELECT a select FROM t", "error E05 at 9\n"),
    ("SELECT a FROM t AS where", "error E05 at 19\n"),
    ("SELECT a FROM r JOIN s WHERE a", "error E05 at 23\n"),
    ("SELECT a FROM r CROSS JOIN s ON a", "error E05 at 29\n"),
    ("SELECT a FROM (SELECT 1)", "error E05 at 24\n"),
    ("SELECT EXISTS ((SELECT 1))", "error E05 at 15\n"),
    ("SELECT COUNT(SELECT 1)", "error E05 at 13\n"),
    ("INSERT INTO t VALUES (SELECT 1)", "error E05 at 22\n"),
    ("SELECT a IN () FROM t", "error E05 at 13\n"),
    ("SELECT ((SELECT 1) UNION SELECT 2)", "error E05 at 19\n"),
    ("SELECT a = ANY (1) FROM t", "error E05 at 16\n"),
    ("SELECT a NOT NULL FROM t", "error E05 at 13\n"),
    ("SELECT a = NOT b FROM t", "error E05 at 11\n"),
    ("SELECT a < b < c FROM t", "error E05 at 13\n"),
    ("SELECT a LIKE b LIKE c FROM t", "error E05 at 16\n"),
    ("SELECT a IS NULL IS NULL FROM t", "error E05 at 17\n"),
    ("SELECT a.b.c FROM t", "error E05 at 10\n"),
    ("SELECT CAST(1 AS TEXT)", "error E05 at 12\n"),
    (
        "SELECT CASE a WHEN 1 THEN 2 END FROM t",
        "error E05 at 12\n",
    ),
    ("SELECT (1, 2)", "error E05 at 9\n"),
];

#[test]
fn misspelled_texts_are_refused(rt: HostRuntime) -> Result<(), Fail> {
    for (text, line) in MISSPELLED {
        let ended = answered(rt.alloc(), text)?;
        assert_eq!(rt; ended.out.written(), line.as_bytes(), "{text}");
    }
    Ok(())
}

/// A number in so many parentheses.
fn nested(alloc: Global, depth: usize) -> Result<String, Fail> {
    let opening = "(".repeat(alloc, depth)?;
    let closing = ")".repeat(alloc, depth)?;
    Ok(format!(in alloc; "SELECT {opening}1{closing}")?)
}

#[test]
fn nesting_has_a_bound(rt: HostRuntime) -> Result<(), Fail> {
    let deep = nested(rt.alloc(), 64)?;
    assert_ne!(rt; answered(rt.alloc(), deep.as_str())?.status, Status::Syntax);
    let deeper = nested(rt.alloc(), 65)?;
    let ended = answered(rt.alloc(), deeper.as_str())?;
    assert_eq!(rt; ended.out.written(), b"error E06 at 71\n".as_slice());
    Ok(())
}
