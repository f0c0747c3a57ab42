//! Reading the disk (`perm_io`), of which no contract tells the bytes.
use perm_io::{DiskFiles, Files, ReadError, read_all};
use perm_values::Chars;
use std::alloc::Global;
use std::test::Fail;
use std::{env, fs, process};

/// How long the file is that is read whole, or why it isn't.
fn read_length<F: Files>(
    alloc: Global,
    files: &mut F,
    name: &str,
    limit: usize,
) -> Result<usize, ReadError> {
    let name = Chars::from_text(alloc, name)?;
    Ok(read_all(alloc, files, &name, limit)?.len())
}

#[test]
fn reading_the_disk(rt: HostRuntime) -> Result<(), Fail> {
    let alloc = rt.alloc();
    let folder = env::temp_dir(&rt)?;
    let folder = folder.as_str();
    let id = process::id(rt.process());
    let name = format!(in alloc; "{folder}/perm_io.{id}")?;
    fs::write(&rt, name.as_str(), "hello")?;
    let mut files = DiskFiles::new(&rt);
    let cases = [
        (name.as_str(), 5, Ok(5)),
        (name.as_str(), 4, Err(ReadError::TooLarge)),
        (folder, 5, Err(ReadError::Fault)),
        ("no/such/file", 5, Err(ReadError::Missing)),
        ("a\0b", 5, Err(ReadError::Fault)),
    ];
    for (name, limit, want) in cases {
        let got = read_length(alloc, &mut files, name, limit);
        assert!(rt; got == want, "{name} within {limit}");
    }
    fs::remove_file(&rt, name.as_str())?;
    Ok(())
}
