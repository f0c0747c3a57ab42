//! Queries as high as may be, and one higher (`name_analysis`, by `perm_engine`).
use crate::runs::{Ended, Given, run};
use perm_engine::Status;
use perm_values::{Bytes, NoMemory};
use std::alloc::Global;
use std::test::Fail;

fn answered(alloc: Global, script: &[u8]) -> Result<Ended, NoMemory> {
    let given = Given {
        words: &["s"],
        script,
        rows: b"",
        reads: &[],
        writes: &[],
        room: 200,
    };
    run(alloc, &given)
}

/// A table, and a query with so many items in FROM.
fn items(alloc: Global, count: u64) -> Result<Bytes, Fail> {
    let mut script = Bytes::new(alloc);
    script.add(b"CREATE TABLE r (a INTEGER); SELECT 1 FROM r x0")?;
    for number in 1..count {
        let item = format!(in alloc; ", r x{number}")?;
        script.add(item.as_bytes())?;
    }
    Ok(script)
}

/// So many queries, united.
fn unions(alloc: Global, count: usize) -> Result<Bytes, Fail> {
    let first = "SELECT 1 UNION ".repeat(alloc, count.saturating_sub(1))?;
    let mut script = Bytes::new(alloc);
    script.add(first.as_bytes())?;
    script.add(b"SELECT 1")?;
    Ok(script)
}

#[test]
fn queries_have_a_greatest_height(rt: HostRuntime) -> Result<(), Fail> {
    let alloc = rt.alloc();
    let cases: [(Bytes, &str, Status); 4] = [
        (
            items(alloc, 254)?,
            "CREATE TABLE\n\"column1\"\n(0 rows)\n",
            Status::Done,
        ),
        (
            items(alloc, 255)?,
            "CREATE TABLE\nerror E27 at 28\n",
            Status::Refused,
        ),
        (
            unions(alloc, 255)?,
            "\"column1\"\n1\n(1 rows)\n",
            Status::Done,
        ),
        (unions(alloc, 256)?, "error E27 at 0\n", Status::Refused),
    ];
    for (script, text, status) in &cases {
        let ended = answered(alloc, script.as_slice())?;
        assert_eq!(rt; ended.status, *status, "{text}");
        assert_eq!(rt; ended.out.written(), text.as_bytes(), "{text}");
    }
    Ok(())
}
