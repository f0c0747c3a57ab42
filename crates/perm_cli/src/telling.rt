//! What a person is told of a refusal. Where it stands in the script, the script is read once more, and nothing is told where that
//! fails, where memory is wanting, or where what is read then can't be what was run. Where it stands in a file that is copied, that file
//! is read once more, and where that fails less is told.
use perm_engine::{SCRIPT_LIMIT, Status, Wanted, read_words};
use perm_io::{Files, WatchedFiles, read_all};
use perm_values::{Bytes, Chars};
use refusal_notes::{Cause, cause_of, line_at, note};
use refusal_tokens::token_hint;
use std::alloc::Global;
use std::{fs, rt};

/// How many bytes of a copied file are read once more at most: as many as COPY reads.
const COPY_LIMIT: usize = 1 << 26;

/// The note on a run that ended with this status and whose output ended with these bytes.
pub(crate) fn told<R: rt::Files, F: Files + Drop>(
    alloc: Global,
    rt: &R,
    words: &[Chars],
    status: Status,
    files: &mut WatchedFiles<F>,
    written: &[u8],
) -> Option<Bytes> {
    match status {
        Status::Syntax | Status::Refused | Status::RunFault | Status::BadData | Status::ReadFault =>
            {}
        _ => return None,
    }
    let cause = cause_of(line_at(written, written.len().saturating_sub(1)))?;
    let name = Chars::new(alloc, files.name()).ok()??;
    match cause {
        Cause::At { .. } => told_in_script(alloc, rt, words, cause, files, name.bytes()),
        Cause::Data(_) => told_of_copy(alloc, rt, cause, files, &name),
        _ => note(alloc, cause, name.bytes(), b"", b"").ok(),
    }
}

/// The note on a cause at an offset of the script.
fn told_in_script<R: rt::Files, F: Files + Drop>(
    alloc: Global,
    rt: &R,
    words: &[Chars],
    cause: Cause,
    files: &mut WatchedFiles<F>,
    copied: &[u8],
) -> Option<Bytes> {
    match read_words(alloc, words) {
        Ok(Wanted::Script(name)) => {
            let script = script_again(alloc, rt, &name, files)?;
            let mut told = note(alloc, cause, name.bytes(), script.as_slice(), copied).ok()?;
            if let Cause::At { code, at } = cause {
                let hint = token_hint(alloc, code, script.as_slice(), at).ok()?;
                told.add(hint.as_slice()).ok()?;
            }
            Some(told)
        }
        _ => None,
    }
}

/// The note on a record of the file that was copied last.
fn told_of_copy<R: rt::Files, F: Files + Drop>(
    alloc: Global,
    rt: &R,
    cause: Cause,
    files: &mut WatchedFiles<F>,
    name: &Chars,
) -> Option<Bytes> {
    let empty = Bytes::new(alloc);
    let copy = again(alloc, rt, name, files, COPY_LIMIT).unwrap_or(empty);
    note(alloc, cause, name.bytes(), copy.as_slice(), b"").ok()
}

/// The script once more, where it is as long as when it was run.
fn script_again<R: rt::Files, F: Files + Drop>(
    alloc: Global,
    rt: &R,
    name: &Chars,
    files: &mut WatchedFiles<F>,
) -> Option<Bytes> {
    let length = files.first();
    let script = again(alloc, rt, name, files, SCRIPT_LIMIT)?;
    if script.len() as u64 == length {
        Some(script)
    } else {
        None
    }
}

/// The file once more: one that can be read twice, as a pipe can't.
fn again<R: rt::Files, F: Files + Drop>(
    alloc: Global,
    rt: &R,
    name: &Chars,
    files: &mut WatchedFiles<F>,
    limit: usize,
) -> Option<Bytes> {
    match fs::metadata(rt, name.as_str()) {
        Ok(found) if found.is_file() => read_all(alloc, files, name, limit).ok(),
        _ => None,
    }
}
