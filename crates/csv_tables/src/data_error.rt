use perm_values::NoMemory;
use std::error::Error;
use std::fmt;

/// Why a file isn't loaded. Records and fields count from 1.
#[derive(Clone, Copy, Debug, PartialEq, Eq)]
pub enum DataError {
    /// The record has another number of fields than there are columns.
    Width { row: u64 },
    /// The field isn't an optional sign and digits, or its number doesn't fit 64 bits.
    NotInteger { row: u64, field: u64 },
    /// The field isn't UTF-8.
    NotText { row: u64, field: u64 },
    /// There was not enough memory.
    NoMemory,
}

impl fmt::Display for DataError {
    fn fmt<W: fmt::Write>(&self, f: &mut fmt::Formatter<W>) -> fmt::Result {
        match self {
            DataError::Width { row } => write!(f, "record {row} has another width"),
            DataError::NotInteger { row, field } => {
                write!(f, "field {field} of record {row} is no integer")
            }
            DataError::NotText { row, field } => {
                write!(f, "field {field} of record {row} is no text")
            }
            DataError::NoMemory => f.write_str("out of memory"),
        }
    }
}

impl Error for DataError {}

impl From<NoMemory> for DataError {
    ghost use Rattle.std.specs.Prelude.{◌≡◌};
    ghost use Rattle.csv_tables.specs.declared.data_error.DataError.TheVariants as fault;

    ghost from_gives = { λ _ error. error ≡ fault.NoMemory };

    fn from(_error: NoMemory) -> DataError {
        DataError::NoMemory
    }
}

// The contracts of the csv crate don't exclude a fault of reading, but std's reader of bytes in memory has none, and
// records may have any length: each error is want of memory.
impl From<csv::Error> for DataError {
    ghost use Rattle.std.specs.Prelude.{◌≡◌};
    ghost use Rattle.csv_tables.specs.declared.data_error.DataError.TheVariants as fault;

    ghost from_gives = { λ _ error. error ≡ fault.NoMemory };

    fn from(_error: csv::Error) -> DataError {
        DataError::NoMemory
    }
}
