//! Files to read, an output to write, and counts of their faults; and an output and files that hand on to others and keep a little
//! of what went through.
#![tactic(auto)]

mod count;
mod disk_files;
mod failed;
mod failures;
mod files;
mod memory_files;
mod memory_sink;
mod named_file;
mod never_files;
mod never_sink;
mod reading;
mod shelf;
mod sink;
mod std_sink;
mod watched;
mod writing;

pub use disk_files::DiskFiles;
pub use failed::Failed;
pub use files::{BeginError, Files};
pub use memory_files::MemoryFiles;
pub use memory_sink::MemorySink;
pub use named_file::NamedFile;
pub use never_files::NeverFiles;
pub use never_sink::NeverSink;
pub use reading::{ReadError, read_all};
pub use sink::Sink;
pub use std_sink::StdSink;
pub use watched::{WatchedFiles, WatchedSink};
pub use writing::{WriteFault, write_all};
