//! An output and files that hand on to others, and keep a little of what went through: the last bytes that the output took, the
//! name of the file begun last, and how many bytes of the first one were read. No call here takes memory.

mod kept;
mod watched_files;
mod watched_sink;

pub use watched_files::WatchedFiles;
pub use watched_sink::WatchedSink;
