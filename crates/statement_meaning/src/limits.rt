/// The greatest length of a file of rows, in bytes.
pub const FILE_LIMIT: usize = 1 << 26;
