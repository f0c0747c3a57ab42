ghost use Rattle.std.specs.Prelude.{◌≡◌, ◌++◌, ◌≤◌, ◌+◌, length};
ghost use Rattle.csv_tables.specs.Lines.{data_line, error_line, field_line, record_line, two_digits};

use crate::data_error::DataError;
use crate::errors::line::Line;

/// The line that names a cause by its number, at an offset in the script.
pub fn error_line(code: u8, at: usize) -> Line
    ensures { result ≡ error_line code at }
{
    let mut line = Line::new();
    line.add(b"error E");
    if code < 10 {
        line.add(b"0");
    }
    line.add_number(u64::from(code));
    line.add(b" at ");
    line.add_number(at as u64);
    line.add(b"\n");
    line
}

/// The line that names what is wrong with a file's records; want of memory has none.
pub fn data_line(error: DataError) -> Line
    ensures { result ≡ data_line error }
{
    match error {
        DataError::Width { row } => record_line(b"error E42", row),
        DataError::NotInteger { row, field } => field_line(b"error E43", row, field),
        DataError::NotText { row, field } => field_line(b"error E44", row, field),
        DataError::NoMemory => Line::new(),
    }
}

/// The line of a cause at a record.
fn record_line(cause: &[u8], row: u64) -> Line
    requires { length cause.now ≤ 9 }
    ensures { result ≡ record_line cause.now row }
{
    let mut line = Line::new();
    line.add(cause);
    line.add(b" record ");
    line.add_number(row);
    line.add(b"\n");
    line
}

/// The line of a cause at a field of a record.
fn field_line(cause: &[u8], row: u64, field: u64) -> Line
    requires { length cause.now ≤ 9 }
    ensures { result ≡ field_line cause.now row field }
{
    let mut line = Line::new();
    line.add(cause);
    line.add(b" record ");
    line.add_number(row);
    line.add(b" field ");
    line.add_number(field);
    line.add(b"\n");
    line
}
