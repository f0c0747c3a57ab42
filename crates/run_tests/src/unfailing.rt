//! Runs over files and an output whose calls never fail.
use crate::runs::{file, words_of};
use perm_engine::{Status, perm};
use perm_io::{NeverFiles, NeverSink};
use perm_values::{List, NoMemory};
use std::alloc::Global;
use std::test::Fail;

/// How a run ends over files and an output whose calls never fail, and how many bytes the output took.
fn never_failing(alloc: Global, script: &[u8]) -> Result<(Status, u64), NoMemory> {
    let words = words_of(alloc, &["s"])?;
    let mut held = List::new(alloc);
    held.push(file(alloc, "s", script)?)?;
    let mut out = NeverSink::new();
    let status = perm(
        alloc,
        words.as_slice(),
        &mut NeverFiles::new(held),
        &mut out,
    );
    Ok((status, out.taken()))
}

#[test]
fn runs_that_cannot_fail(rt: HostRuntime) -> Result<(), Fail> {
    let script = b"CREATE TABLE r (a TEXT);";
    assert_eq!(rt; never_failing(rt.alloc(), script)?, (Status::Done, 13));
    Ok(())
}
