//! Runs in which the first call on the files or on the output fails, then the second one, and so on until a run makes fewer calls.
use crate::runs::{Ended, Given, run};
use perm_engine::Status;
use perm_values::NoMemory;
use std::alloc::Global;
use std::test::Fail;

/// Which calls fail.
#[derive(Clone, Copy, PartialEq, Eq)]
enum Side {
    Files,
    Output,
}

/// Files are read, rows are stored with their provenance, and a statement is refused.
const STORED: &[u8] =
    b"CREATE TABLE r (a INTEGER, b TEXT); COPY r FROM 'c'; CREATE TABLE k AS SELECT PROVENANCE b FROM r; COPY r FROM 'c'; SHOW FRESH k; SELECT a FROM k";

/// A table, rows that are inserted and taken away, a query with PROVENANCE, and what one means as SQL.
const CHANGED: &[u8] =
    b"CREATE TABLE r (a INTEGER); INSERT INTO r VALUES (1), (2); DELETE FROM r WHERE a = 1; SELECT PROVENANCE a FROM r; EXPLAIN REWRITE SELECT a FROM r";

const STORED_TEXTS: [&str; 6] = [
    "CREATE TABLE\n",
    "COPY 2\n",
    "CREATE TABLE AS 2\n",
    "COPY 2\n",
    "stale r\n",
    "error E11 at 137\n",
];

const CHANGED_TEXTS: [&str; 5] = [
    "CREATE TABLE\n",
    "INSERT 2\n",
    "DELETE 1\n",
    "\"a\",\"prov_r_a\"\n2,2\n(1 rows)\n",
    "SELECT \"r\".\"a\"\nFROM \"r\";\n",
];

const GENERATED_TEXTS: [&str; 8] = [
    "CREATE TABLE\n",
    "CREATE TABLE\n",
    "INSERT 2\n",
    "INSERT 10\n",
    "\"count\",\"sum\"\n2,3\n(1 rows)\n",
    "\"count\"\n2\n(1 rows)\n",
    "\"count\"\n2\n(1 rows)\n",
    "\"count\"\n2\n(1 rows)\n",
];

const READ_FAULT: &[u8] = b"error E50\n";

/// The run in which this call fails; none does where it is 0, since calls are numbered from 1.
fn failing_run(
    alloc: Global,
    words: &[&str],
    script: &[u8],
    side: Side,
    call: u64,
) -> Result<Ended, NoMemory> {
    let failing = [call];
    let none: [u64; 0] = [];
    let (reads, writes) = match side {
        Side::Files => (failing.as_slice(), none.as_slice()),
        Side::Output => (none.as_slice(), failing.as_slice()),
    };
    let given = Given {
        words,
        script,
        rows: b"1,x\n2,y\n",
        reads,
        writes,
        room: 2000,
    };
    run(alloc, &given)
}

/// Whether what is written is these texts, and then the last line.
fn is_text(texts: &[&str], last: &[u8], written: &[u8]) -> bool {
    let mut from = 0;
    for text in texts {
        let to = text.len().saturating_add(from);
        if written.get(from..to) != Some(text.as_bytes()) {
            return false;
        }
        from = to;
    }
    written.get(from..) == Some(last)
}

/// Whether a run whose call failed says so behind so many whole texts.
fn is_cut(ended: &Ended, texts: &[&str], side: Side) -> bool {
    let written = ended.out.written();
    match side {
        Side::Output => ended.status == Status::WriteFault && is_text(texts, b"", written),
        Side::Files => ended.status == Status::ReadFault && is_text(texts, READ_FAULT, written),
    }
}

/// A command line, the texts of a run of it, and behind how many of them each of its calls fails.
#[derive(Clone, Copy)]
struct Whole<'a> {
    words: &'a [&'a str],
    script: &'a [u8],
    texts: &'a [&'a str],
    reads: &'a [usize],
    writes: &'a [usize],
}

/// Whether each of the calls fails behind so many texts, and the run that makes fewer calls has all of them.
fn fails_behind(
    alloc: Global,
    whole: &Whole<'_>,
    side: Side,
    behind: &[usize],
) -> Result<bool, NoMemory> {
    for (at, count) in behind.iter().enumerate() {
        let call = at as u64 + 1;
        let ended = failing_run(alloc, whole.words, whole.script, side, call)?;
        let texts = whole.texts.get(..*count).unwrap_or(&[]);
        if !is_cut(&ended, texts, side) {
            return Ok(false);
        }
    }
    let last = behind.len() as u64 + 1;
    let ended = failing_run(alloc, whole.words, whole.script, side, last)?;
    Ok(is_text(whole.texts, b"", ended.out.written()))
}

#[test]
fn each_call_fails_in_turn(rt: HostRuntime) -> Result<(), Fail> {
    let alloc = rt.alloc();
    // A file is begun, read, and read to its end; a text is a write, and the last call is the flush.
    let cases = [
        Whole {
            words: &["s"],
            script: STORED,
            texts: &STORED_TEXTS,
            reads: &[0, 0, 0, 1, 1, 1, 3, 3, 3],
            writes: &[0, 1, 2, 3, 4, 5, 6],
        },
        Whole {
            words: &["s"],
            script: CHANGED,
            texts: &CHANGED_TEXTS,
            reads: &[0, 0, 0],
            writes: &[0, 1, 2, 3, 4, 5],
        },
        Whole {
            words: &["--generate", "2"],
            script: b"",
            texts: &GENERATED_TEXTS,
            reads: &[],
            writes: &[0, 1, 2, 3, 4, 5, 6, 7, 8],
        },
    ];
    for whole in &cases {
        assert!(rt; fails_behind(alloc, whole, Side::Files, whole.reads)?);
        assert!(rt; fails_behind(alloc, whole, Side::Output, whole.writes)?);
    }
    Ok(())
}
