//! The run of `perm --generate 10`: what the program calls, over the system's files and the standard output.
#![tactic(auto)]

use perm_engine::{Status, perm};
use perm_io::{DiskFiles, StdSink};
use perm_values::{Chars, List, NoMemory};
use std::alloc::Global;
use std::process::ExitCode;

const WORDS: [&str; 2] = ["--generate", "10"];

fn main(rt: HostRuntime) -> ExitCode {
    let alloc = rt.alloc();
    let status = match words(alloc) {
        Ok(words) => perm(
            alloc,
            words.as_slice(),
            &mut DiskFiles::new(&rt),
            &mut StdSink::new(rt.stdout()),
        ),
        Err(NoMemory) => Status::NoMemory,
    };
    ExitCode::from(status.number())
}

fn words(alloc: Global) -> Result<List<Chars>, NoMemory> {
    let mut words = List::new(alloc);
    for word in WORDS {
        words.push(Chars::from_text(alloc, word)?)?;
    }
    Ok(words)
}
