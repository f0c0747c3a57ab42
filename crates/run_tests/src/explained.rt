//! Texts of EXPLAIN REWRITE: each answers what its query answers (`sql_printer`, by `perm_engine`).
use crate::runs::{Ended, Given, run};
use perm_engine::Status;
use perm_values::{Bytes, NoMemory};
use std::alloc::Global;
use std::test::Fail;

const TABLES: &[u8] =
    b"CREATE TABLE r (a INTEGER, b TEXT); CREATE TABLE \"s \"\"\" (a INTEGER, \"select\" INTEGER); INSERT INTO r VALUES (1, 'x'), (2, 'o''k'), (NULL, NULL), (2, 'x'); INSERT INTO \"s \"\"\" VALUES (2, -9223372036854775807), (3, NULL), (NULL, 0);";

const TOLD: &[u8] = b"CREATE TABLE\nCREATE TABLE\nINSERT 4\nINSERT 3\n";

/// A row more in each table.
const MORE: &[u8] = b"INSERT INTO r VALUES (3, 'z'); INSERT INTO \"s \"\"\" VALUES (1, 7);";

/// Queries over the tables, the last of which meet faults.
const QUERIES: [&str; 18] = [
    "SELECT 1 AS \"one \"\"\", NULL, TRUE, 'o''k', -9223372036854775807 - 1;",
    "SELECT * FROM r, \"s \"\"\" x;",
    "SELECT PROVENANCE b, a FROM r ORDER BY b DESC, a;",
    "SELECT PROVENANCE x.a FROM r x RIGHT JOIN \"s \"\"\" y ON x.a = y.a AND y.\"select\" IS NOT NULL;",
    "SELECT x.a, y.a FROM r x FULL JOIN \"s \"\"\" y ON x.a = y.a LEFT JOIN r z ON z.a < x.a;",
    "SELECT PROVENANCE b, COUNT(*), COUNT(DISTINCT a), SUM(a), MAX(b) FROM r GROUP BY b HAVING COUNT(*) > 0;",
    "SELECT PROVENANCE COUNT(*) FROM r;",
    "SELECT PROVENANCE a FROM r UNION ALL (SELECT a FROM \"s \"\"\" EXCEPT SELECT 3);",
    "SELECT a FROM r INTERSECT ALL SELECT a FROM \"s \"\"\";",
    "SELECT PROVENANCE a FROM r WHERE a IN (SELECT a FROM \"s \"\"\" y WHERE y.a = r.a);",
    "SELECT PROVENANCE b FROM r WHERE NOT EXISTS (SELECT 1 FROM \"s \"\"\" y WHERE y.a >= r.a);",
    "SELECT PROVENANCE (SELECT MIN(y.\"select\") FROM \"s \"\"\" y WHERE y.a = r.a) AS m FROM r;",
    "SELECT PROVENANCE a FROM r WHERE a >= ALL (SELECT y.a FROM \"s \"\"\" y WHERE y.a < 3);",
    "SELECT PROVENANCE r.a, n FROM r LEFT JOIN LATERAL (SELECT COUNT(*) AS n FROM \"s \"\"\" y WHERE y.a = r.a) l ON TRUE;",
    "SELECT PROVENANCE a FROM (SELECT DISTINCT a FROM r ORDER BY a DESC LIMIT 2) t;",
    "SELECT PROVENANCE a FROM r BASERELATION;",
    "SELECT PROVENANCE 6 / (a - 1) AS n FROM r;",
    "SELECT (SELECT a FROM \"s \"\"\") FROM r;",
];

/// What a script of these parts, one behind the other, ends with.
fn answered(alloc: Global, tables: &[u8], more: &[u8], text: &[u8]) -> Result<Ended, NoMemory> {
    let mut script = Bytes::new(alloc);
    script.add(tables)?;
    script.add(more)?;
    script.add(text)?;
    let given = Given {
        words: &["s"],
        script: script.as_slice(),
        rows: b"",
        reads: &[],
        writes: &[],
        room: 50_000,
    };
    run(alloc, &given)
}

/// The text that explains the query over tables that are made and filled by these statements, which tell so many bytes.
fn explained(alloc: Global, tables: &[u8], told: usize, query: &str) -> Result<Bytes, NoMemory> {
    let ended = answered(alloc, tables, b"EXPLAIN REWRITE ", query.as_bytes())?;
    let mut text = Bytes::new(alloc);
    text.add(ended.out.written().get(told..).unwrap_or(b""))?;
    Ok(text)
}

#[test]
fn a_text_answers_as_its_query(rt: HostRuntime) -> Result<(), Fail> {
    let alloc = rt.alloc();
    for query in QUERIES {
        let text = explained(alloc, TABLES, TOLD.len(), query)?;
        for more in [b"".as_slice(), MORE] {
            let asked = answered(alloc, TABLES, more, query.as_bytes())?;
            let again = answered(alloc, TABLES, more, text.as_slice())?;
            assert_eq!(rt; again.status, asked.status, "{query}");
            assert_eq!(rt; again.out.written(), asked.out.written(), "{query}");
        }
    }
    Ok(())
}

/// Queries that are explained over tables, the statements that come before the text is run, and what all that answers.
const ANSWERED: [(&str, &str, &str, &str, &str); 4] = [
    (
        "CREATE TABLE r (a INTEGER, b TEXT); INSERT INTO r VALUES (1, 'x'), (2, 'y'); CREATE TABLE s (c INTEGER); INSERT INTO s VALUES (1), (2);",
        "CREATE TABLE\nINSERT 2\nCREATE TABLE\nINSERT 2\n",
        "SELECT PROVENANCE r.a, s.c FROM r LEFT JOIN s ON r.a = s.c AND EXISTS (SELECT 1 FROM s z WHERE z.c < r.a);",
        "",
        "\"a\",\"c\",\"prov_r_a\",\"prov_r_b\",\"prov_s_c\",\"prov_s_1_c\"\n1,,1,\"x\",,\n2,2,2,\"y\",2,1\n(2 rows)\n",
    ),
    (
        "CREATE TABLE r (a INTEGER, b TEXT); INSERT INTO r VALUES (1, 'x'); CREATE TABLE s (c INTEGER); INSERT INTO s VALUES (1), (3);",
        "CREATE TABLE\nINSERT 1\nCREATE TABLE\nINSERT 2\n",
        "SELECT PROVENANCE r.a, s.c FROM r RIGHT JOIN s ON r.a = s.c AND s.c IN (SELECT z.c FROM s z);",
        "",
        "\"a\",\"c\",\"prov_r_a\",\"prov_r_b\",\"prov_s_c\",\"prov_s_1_c\"\n1,1,1,\"x\",1,1\n,3,,,3,\n(2 rows)\n",
    ),
    (
        "CREATE TABLE r (a INTEGER, b TEXT); INSERT INTO r VALUES (1, 'x'), (2, 'y'); CREATE TABLE s (c INTEGER); INSERT INTO s VALUES (1), (2);",
        "CREATE TABLE\nINSERT 2\nCREATE TABLE\nINSERT 2\n",
        "SELECT PROVENANCE r.a, x.m FROM r CROSS JOIN LATERAL (SELECT MAX(c) AS m FROM s WHERE s.c <= r.a) x;",
        "",
        "\"a\",\"m\",\"prov_r_a\",\"prov_r_b\",\"prov_s_c\"\n1,1,1,\"x\",1\n2,2,2,\"y\",1\n2,2,2,\"y\",2\n(3 rows)\n",
    ),
    (
        "CREATE TABLE r (a INTEGER); INSERT INTO r VALUES (1);",
        "CREATE TABLE\nINSERT 1\n",
        "SELECT PROVENANCE a + 1 AS n FROM r WHERE a IN (SELECT a FROM r);",
        "INSERT INTO r VALUES (2);",
        "INSERT 1\n\"n\",\"prov_r_a\",\"prov_r_1_a\"\n2,1,1\n3,2,2\n(2 rows)\n",
    ),
];

/// What is answered behind the tables by the statements that come before the text, and by the text that explains the query.
fn rest_of(
    alloc: Global,
    tables: &str,
    told: usize,
    query: &str,
    more: &str,
) -> Result<Bytes, NoMemory> {
    let text = explained(alloc, tables.as_bytes(), told, query)?;
    let ended = answered(alloc, tables.as_bytes(), more.as_bytes(), text.as_slice())?;
    let mut rest = Bytes::new(alloc);
    rest.add(ended.out.written().get(told..).unwrap_or(b""))?;
    Ok(rest)
}

#[test]
fn a_text_asks_for_the_rows_as_they_are(rt: HostRuntime) -> Result<(), Fail> {
    let alloc = rt.alloc();
    for (tables, told, query, more, text) in &ANSWERED {
        let rest = rest_of(alloc, tables, told.len(), query, more)?;
        assert_eq!(rt; rest.as_slice(), text.as_bytes(), "{query}");
    }
    Ok(())
}
