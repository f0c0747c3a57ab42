use perm_values::{Bytes, Chars};

/// A file in memory: its name and its bytes.
#[derive(Drop)]
pub struct NamedFile {
    pub name: Chars,
    pub bytes: Bytes,
}
