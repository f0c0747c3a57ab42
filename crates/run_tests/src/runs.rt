//! Runs of whole scripts (`perm_engine`): those that are refused, and those where a read or a write fails or finds no room.
use perm_engine::{Status, perm};
use perm_io::{MemoryFiles, MemorySink, NamedFile};
use perm_values::{Bytes, Chars, List, NoMemory};
use std::alloc::Global;
use std::test::Fail;

const SCRIPT: &[u8] =
    b"CREATE TABLE r (a INTEGER, b TEXT); INSERT INTO r VALUES (1,'x'), (2,'x'); SELECT PROVENANCE b FROM r;";

const ANSWER: &str =
    "CREATE TABLE\nINSERT 2\n\"b\",\"prov_r_a\",\"prov_r_b\"\n\"x\",1,\"x\"\n\"x\",2,\"x\"\n(2 rows)\n";

const USAGE: &str = "usage: perm (SCRIPT | --generate N)\n";

/// What the script that is made from 2 answers.
const GENERATED: &str =
    "CREATE TABLE\nCREATE TABLE\nINSERT 2\nINSERT 10\n\"count\",\"sum\"\n2,3\n(1 rows)\n\"count\"\n2\n(1 rows)\n\"count\"\n2\n(1 rows)\n\"count\"\n2\n(1 rows)\n";

/// How a run ended, and the output with what it took.
#[derive(Drop)]
pub(crate) struct Ended {
    pub(crate) status: Status,
    pub(crate) out: MemorySink,
}

pub(crate) fn file(alloc: Global, name: &str, content: &[u8]) -> Result<NamedFile, NoMemory> {
    let mut bytes = Bytes::new(alloc);
    bytes.add(content)?;
    let name = Chars::from_text(alloc, name)?;
    Ok(NamedFile { name, bytes })
}

/// The words, the files `s`, a script, and `c`, the calls on files and on the output that fail, and the output's room.
#[derive(Clone, Copy)]
pub(crate) struct Given<'a> {
    pub(crate) words: &'a [&'a str],
    pub(crate) script: &'a [u8],
    pub(crate) rows: &'a [u8],
    pub(crate) reads: &'a [u64],
    pub(crate) writes: &'a [u64],
    pub(crate) room: usize,
}

fn files_of(alloc: Global, given: &Given<'_>) -> Result<MemoryFiles, NoMemory> {
    let mut held = List::new(alloc);
    held.push(file(alloc, "s", given.script)?)?;
    held.push(file(alloc, "c", given.rows)?)?;
    MemoryFiles::new(alloc, held, given.reads)
}

pub(crate) fn words_of(alloc: Global, given: &[&str]) -> Result<List<Chars>, NoMemory> {
    let mut words = List::new(alloc);
    for word in given {
        words.push(Chars::from_text(alloc, word)?)?;
    }
    Ok(words)
}

pub(crate) fn run(alloc: Global, given: &Given<'_>) -> Result<Ended, NoMemory> {
    let words = words_of(alloc, given.words)?;
    let mut files = files_of(alloc, given)?;
    let mut out = MemorySink::new(alloc, given.room, given.writes)?;
    let status = perm(alloc, words.as_slice(), &mut files, &mut out);
    Ok(Ended { status, out })
}

/// Scripts with what they write and how they end: those that are none, then one that is refused behind a statement.
const SCRIPTS: [(&[u8], &str, Status); 9] = [
    (b"", "", Status::Done),
    (b"SELECT \xff", "error E01 at 7\n", Status::Syntax),
    (b"SELECT ?", "error E02 at 7\n", Status::Syntax),
    (b"SELECT 'abc", "error E03 at 7\n", Status::Syntax),
    (
        b"SELECT 9223372036854775808;",
        "error E04 at 7\n",
        Status::Syntax,
    ),
    (b"SELECT FROM r;", "error E05 at 7\n", Status::Syntax),
    (
        b"SELECT a FROM r; SELECT",
        "error E05 at 23\n",
        Status::Syntax,
    ),
    (
        b"CREATE TABLE r AS SELECT PROVENANCE 1 / 0;",
        "error E30 at 0\n",
        Status::RunFault,
    ),
    (
        b"CREATE TABLE r (a TEXT);; EXPLAIN REWRITE SELECT b FROM r; SELECT a FROM r",
        "CREATE TABLE\nerror E11 at 49\n",
        Status::Refused,
    ),
];

#[test]
fn scripts_and_their_answers(rt: HostRuntime) -> Result<(), Fail> {
    let alloc = rt.alloc();
    for (script, text, status) in SCRIPTS {
        let given = Given {
            words: &["s"],
            script,
            rows: b"",
            reads: &[],
            writes: &[],
            room: 200,
        };
        let ended = run(alloc, &given)?;
        assert_eq!(rt; ended.status, status, "{text}");
        assert_eq!(rt; ended.out.written(), text.as_bytes(), "{text}");
    }
    Ok(())
}

#[test]
fn words_files_and_failures(rt: HostRuntime) -> Result<(), Fail> {
    let alloc = rt.alloc();
    // The words, the failing calls on the file, and those on the output.
    let cases: [(&[&str], &[u64], &[u64], &str, Status); 14] = [
        (&[], &[], &[], USAGE, Status::Usage),
        (&["s", "s"], &[], &[], USAGE, Status::Usage),
        (&["s", "--generate", "1"], &[], &[], USAGE, Status::Usage),
        (&["--generate", "100001"], &[], &[], USAGE, Status::Usage),
        (&["--generate=2"], &[1], &[], GENERATED, Status::Done),
        (&["t"], &[], &[], "error E40 script\n", Status::BadData),
        (&["s"], &[1], &[], "error E50\n", Status::ReadFault),
        (&["s"], &[2], &[], "error E50\n", Status::ReadFault),
        (&["s"], &[3], &[], "error E50\n", Status::ReadFault),
        (&["s"], &[], &[1], "", Status::WriteFault),
        (&["s"], &[], &[2], "CREATE TABLE\n", Status::WriteFault),
        (
            &["s"],
            &[],
            &[3],
            "CREATE TABLE\nINSERT 2\n",
            Status::WriteFault,
        ),
        (&["s"], &[], &[4], ANSWER, Status::WriteFault),
        (&["s"], &[], &[5], ANSWER, Status::Done),
    ];
    for (words, reads, writes, text, status) in cases {
        let given = Given {
            words,
            script: SCRIPT,
            rows: b"",
            reads,
            writes,
            room: 200,
        };
        let ended = run(alloc, &given)?;
        assert_eq!(rt; ended.status, status, "{text}");
        assert_eq!(rt; ended.out.written(), text.as_bytes(), "{text}");
    }
    Ok(())
}

#[test]
fn outputs_without_room(rt: HostRuntime) -> Result<(), Fail> {
    let alloc = rt.alloc();
    for room in 0..ANSWER.len() {
        let given = Given {
            words: &["s"],
            script: SCRIPT,
            rows: b"",
            reads: &[],
            writes: &[],
            room,
        };
        let ended = run(alloc, &given)?;
        assert_eq!(rt; ended.status, Status::WriteFault, "room {room}");
        assert_eq!(rt;
            ended.out.written(),
            &ANSWER.as_bytes()[..room],
            "room {room}"
        );
    }
    Ok(())
}

const COPY: &[u8] = b"CREATE TABLE t (a INTEGER, b TEXT); COPY t FROM 'c'; SELECT a, b FROM t";

const COPIED: &str = "CREATE TABLE\nCOPY 1\n\"a\",\"b\"\n5,\"x\"\n(1 rows)\n";

/// Scripts that copy, the bytes of the file `c`, and the failing calls on files, with what is written and how the run ends.
/// The calls on the script are the first three, those on the file the next.
const COPIES: [(&[u8], &[u8], &[u64], &str, Status); 8] = [
    (
        b"CREATE TABLE t (a INTEGER, b TEXT); COPY t FROM 'd'",
        b"",
        &[],
        "CREATE TABLE\nerror E40 at 36\n",
        Status::BadData,
    ),
    (
        COPY,
        b"1,x\n2,y\n3,z,w\n",
        &[],
        "CREATE TABLE\nerror E42 record 3\n",
        Status::BadData,
    ),
    (
        COPY,
        b"1,x\n-,y\n",
        &[],
        "CREATE TABLE\nerror E43 record 2 field 1\n",
        Status::BadData,
    ),
    (
        COPY,
        b"1,\xff",
        &[],
        "CREATE TABLE\nerror E44 record 1 field 2\n",
        Status::BadData,
    ),
    (
        COPY,
        b"+5,x",
        &[4],
        "CREATE TABLE\nerror E50\n",
        Status::ReadFault,
    ),
    (
        COPY,
        b"+5,x",
        &[5],
        "CREATE TABLE\nerror E50\n",
        Status::ReadFault,
    ),
    (
        COPY,
        b"+5,x",
        &[6],
        "CREATE TABLE\nerror E50\n",
        Status::ReadFault,
    ),
    (COPY, b"+5,x", &[7], COPIED, Status::Done),
];

#[test]
fn files_are_copied(rt: HostRuntime) -> Result<(), Fail> {
    let alloc = rt.alloc();
    for (script, rows, failing, text, status) in COPIES {
        let given = Given {
            words: &["s"],
            script,
            rows,
            reads: failing,
            writes: &[],
            room: 300,
        };
        let ended = run(alloc, &given)?;
        assert_eq!(rt; ended.status, status, "{text}");
        assert_eq!(rt; ended.out.written(), text.as_bytes(), "{text}");
    }
    Ok(())
}
