use csv_tables::DataError;

/// Why a run ends, as its last line names it.
#[derive(Clone, Copy, PartialEq, Eq)]
pub enum Cause {
    /// The cause of this number at an offset of the script.
    At { code: u8, at: usize },
    /// The script's file is missing.
    NoScript,
    /// The script's file is too long.
    LongScript,
    /// What is wrong with a file's records.
    Data(DataError),
    /// A file can't be opened or read.
    Unread,
}
