//! The program `perm`: the words of its command line, the system's files and the standard output, handed to the engine; and of a
//! refusal a note to the standard error.
#![tactic(auto)]

ghost use Rattle.std.specs.Prelude.{◌≡◌};
ghost use Rattle.std.specs.Process.{exit_status};
ghost use Rattle.perm_engine.specs.meaning.Statuses.{number_of};
ghost use Rattle.perm_cli.specs.declared.WordsError.TheVariants.{NoMemory as OutOfMemory};

mod telling;

use crate::telling::told;
use perm_engine::{Status, perm};
use perm_io::{DiskFiles, StdSink, WatchedFiles, WatchedSink, write_all};
use perm_values::{Chars, List, NoMemory};
use std::alloc::Global;
use std::io::ErrorKind;
use std::process::ExitCode;
use std::rt::Env;
use std::{env, io};

/// Why the words can't be handed on: one isn't UTF-8 or can't be asked for, or memory is wanting.
#[derive(Clone, Copy, PartialEq, Eq)]
enum WordsError {
    NotText,
    NoMemory,
}

impl From<io::Error> for WordsError {
    fn from(error: io::Error) -> WordsError {
        match error.kind() {
            ErrorKind::OutOfMemory => WordsError::NoMemory,
            _ => WordsError::NotText,
        }
    }
}

impl From<NoMemory> for WordsError {
    ghost from_gives = { λ _ made. made ≡ OutOfMemory };

    fn from(_error: NoMemory) -> WordsError {
        WordsError::NoMemory
    }
}

impl WordsError {
    fn status(self) -> Status
        ensures text { self ≡ WordsError.NotText → result ≡ Status.Usage }
        ensures memory { self ≡ WordsError.NoMemory → result ≡ Status.NoMemory }
    {
        match self {
            WordsError::NotText => Status::Usage,
            WordsError::NoMemory => Status::NoMemory,
        }
    }
}

fn main(rt: HostRuntime) -> ExitCode {
    let status = match words(rt.alloc(), &rt) {
        Ok(words) => run(&rt, words.as_slice()),
        Err(error) => error.status(),
    };
    exit_code(status)
}

/// Runs the words over the system's files and the standard output, and tells of a refusal on the standard error. Whether that can
/// be written counts for nothing.
fn run(rt: &HostRuntime, words: &[Chars]) -> Status {
    let alloc = rt.alloc();
    let mut files = WatchedFiles::new(DiskFiles::new(rt));
    let mut out = WatchedSink::new(StdSink::new(rt.stdout()));
    let status = perm(alloc, words, &mut files, &mut out);
    if let Some(note) = told(alloc, rt, words, status, &mut files, out.kept()) {
        let _written = write_all(&mut StdSink::new(rt.stderr()), note.as_slice());
    }
    status
}

/// The exit status of the program.
fn exit_code(status: Status) -> ExitCode
    ensures { exit_status result ≡ number_of status }
{
    ExitCode::from(status.number())
}

/// The words that follow the program's name.
fn words<R: Env + Alloc>(alloc: Global, rt: &R) -> Result<List<Chars>, WordsError> {
    let mut words = List::new(alloc);
    for word in env::args(rt)?.skip(1) {
        words.push(Chars::from_text(alloc, word.as_str())?)?;
    }
    Ok(words)
}
