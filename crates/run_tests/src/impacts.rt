//! What IMPACT answers, and with what it is refused: whole runs (`statement_steps`, `delete_impact`, by `perm_engine`).
use crate::runs::{Given, run};
use perm_engine::Status;
use std::test::Fail;

/// Scripts with what they write and how they end.
const IMPACTS: [(&str, &str, Status); 13] = [
    // A row vanishes where each row that it comes from is deleted; nothing is deleted.
    (
        "CREATE TABLE r (a INTEGER, b TEXT); INSERT INTO r VALUES (1, 'x'), (2, 'x'), (3, 'z'); IMPACT DELETE FROM r WHERE a > 1 OF SELECT b FROM r; IMPACT DELETE FROM r WHERE a > 0 OF SELECT b FROM r; SELECT a FROM r;",
        "CREATE TABLE\nINSERT 3\n\"b\"\n\"z\"\n(1 rows)\n\"b\"\n\"x\"\n\"z\"\n(2 rows)\n\"a\"\n1\n2\n3\n(3 rows)\n",
        Status::Done,
    ),
    // A row of NULLs is the row of another table of NULLs, and that one stays.
    (
        "CREATE TABLE s (c INTEGER); CREATE TABLE n (a INTEGER); INSERT INTO s VALUES (NULL), (1); INSERT INTO n VALUES (NULL); IMPACT DELETE FROM s WHERE c IS NULL OF SELECT c FROM s UNION SELECT a FROM n;",
        "CREATE TABLE\nCREATE TABLE\nINSERT 2\nINSERT 1\n\"c\"\n(0 rows)\n",
        Status::Done,
    ),
    // Another table gives the row too.
    (
        "CREATE TABLE r (a INTEGER); CREATE TABLE s (c INTEGER); INSERT INTO r VALUES (1), (2); INSERT INTO s VALUES (1); IMPACT DELETE FROM r OF SELECT a FROM r UNION ALL SELECT c FROM s;",
        "CREATE TABLE\nCREATE TABLE\nINSERT 2\nINSERT 1\n\"a\"\n2\n(1 rows)\n",
        Status::Done,
    ),
    // Each once, under the names and in the order of the query; a view stands for its query.
    (
        "CREATE TABLE r (a INTEGER); CREATE VIEW v AS SELECT a FROM r; INSERT INTO r VALUES (1), (2), (1), (NULL); IMPACT DELETE FROM r WHERE a < 3 OF SELECT a + 1 AS n FROM v ORDER BY n DESC;",
        "CREATE TABLE\nCREATE VIEW\nINSERT 4\n\"n\"\n3\n2\n(2 rows)\n",
        Status::Done,
    ),
    // One of the two rows that a pair is made of is enough.
    (
        "CREATE TABLE r (a INTEGER); INSERT INTO r VALUES (1), (2); IMPACT DELETE FROM r WHERE a = 1 OF SELECT x.a, y.a FROM r x JOIN r y ON x.a <= y.a;",
        "CREATE TABLE\nINSERT 2\n\"a\",\"a\"\n1,1\n1,2\n(2 rows)\n",
        Status::Done,
    ),
    // A row of two pairs stays with one of them.
    (
        "CREATE TABLE r (a INTEGER); CREATE TABLE s (c INTEGER); INSERT INTO r VALUES (1), (2); INSERT INTO s VALUES (1), (2); IMPACT DELETE FROM r WHERE a = 1 OF SELECT c FROM r JOIN s ON a <= c;",
        "CREATE TABLE\nCREATE TABLE\nINSERT 2\nINSERT 2\n\"c\"\n1\n(1 rows)\n",
        Status::Done,
    ),
    // The condition is looked at on no row of a table that the query doesn't read.
    (
        "CREATE TABLE r (a INTEGER); CREATE TABLE s (c INTEGER); INSERT INTO r VALUES (0); INSERT INTO s VALUES (1); IMPACT DELETE FROM r WHERE 1 / a > 0 OF SELECT c FROM s; IMPACT DELETE FROM r WHERE 1 / a > 0 OF SELECT a FROM r;",
        "CREATE TABLE\nCREATE TABLE\nINSERT 1\nINSERT 1\n\"c\"\n(0 rows)\nerror E30 at 165\n",
        Status::RunFault,
    ),
    // The query's own fault, also where it would meet none without the rows.
    (
        "CREATE TABLE r (a INTEGER); INSERT INTO r VALUES (0), (1); IMPACT DELETE FROM r WHERE a = 0 OF SELECT 1 / a FROM r;",
        "CREATE TABLE\nINSERT 2\nerror E30 at 59\n",
        Status::RunFault,
    ),
    // A quotient of a sum: the one's fault could hide the other's. The sum is out of range; without that row the quotient divides by
    // zero, which the query never comes to.
    (
        "CREATE TABLE r (a INTEGER); INSERT INTO r VALUES (1), (2); IMPACT DELETE FROM r WHERE a = 1 OF SELECT 6 / x AS n FROM (SELECT a + 1 AS x FROM r) y;",
        "CREATE TABLE\nINSERT 2\n\"n\"\n3\n(1 rows)\n",
        Status::Done,
    ),
    (
        "CREATE TABLE r (a INTEGER); INSERT INTO r VALUES (1), (-9223372036854775807); IMPACT DELETE FROM r WHERE a = 1 OF SELECT 1 / x FROM (SELECT a + 9223372036854775807 AS x FROM r) y;",
        "CREATE TABLE\nINSERT 2\nerror E31 at 78\n",
        Status::RunFault,
    ),
    // A query that may gain rows, at the query.
    (
        "CREATE TABLE s (c INTEGER); IMPACT DELETE FROM s OF SELECT COUNT(*) FROM s;",
        "CREATE TABLE\nerror E28 at 52\n",
        Status::Refused,
    ),
    (
        "CREATE TABLE s (c INTEGER); IMPACT DELETE FROM s OF SELECT x.c FROM s x LEFT JOIN s y ON x.c < y.c;",
        "CREATE TABLE\nerror E28 at 52\n",
        Status::Refused,
    ),
    // The table comes first.
    (
        "CREATE TABLE s (c INTEGER); IMPACT DELETE FROM r WHERE c OF SELECT COUNT(*) FROM s;",
        "CREATE TABLE\nerror E10 at 47\n",
        Status::Refused,
    ),
];

#[test]
fn impacts_and_their_answers(rt: HostRuntime) -> Result<(), Fail> {
    let alloc = rt.alloc();
    for (script, text, status) in IMPACTS {
        let given = Given {
            words: &["s"],
            script: script.as_bytes(),
            rows: b"",
            reads: &[],
            writes: &[],
            room: 200,
        };
        let ended = run(alloc, &given)?;
        assert_eq!(rt; ended.status, status, "{script}");
        assert_eq!(rt; ended.out.written(), text.as_bytes(), "{script}");
    }
    Ok(())
}
