ghost use Rattle.std.specs.Prelude.{◌≡◌, [], Err, IfOk, IfErr, IsTrue};
ghost use Rattle.csv.specs.Records.{fields_of};
ghost use Rattle.csv_tables.specs.Loading.{broken_rules, field_breaks, field_value, first_of, integer_of, IsFirstBroken, record_breaks, row_values, spelled_rows};
ghost use Rattle.csv_tables.specs.declared.data_error.DataError.TheVariants as fault;
ghost use Rattle.perm_values.specs.Rows.{bag_fits};

use crate::DataError;
use csv::{ByteRecord, ReaderBuilder};
use perm_values::{Chars, Kind, List, Row, Rows, Value};
use std::alloc::Global;

/// The columns that records are read into.
#[derive(Clone, Copy)]
struct Columns<'a> {
    alloc: Global,
    kinds: &'a [Kind],
    null_field: &'a [u8],
}

/// The number that a field spells, if it is an integer.
fn integer(field: &[u8]) -> Option<i64>
    ensures { result ≡ integer_of field.now }
{
    match std::str::from_utf8(field) {
        Ok(text) => text.parse().ok(),
        Err(_) => None,
    }
}

impl Columns<'_> {
    /// The value that a field spells, or the rule that it breaks.
    fn value(&self, kind: Kind, field: &[u8], row: u64, place: u64) -> Result<Value, DataError>
        ensures ok { IfOk result (λ value.
            (field_breaks self.now.null_field.now row place kind field.now ≡ [])
            × (value ≡ field_value self.now.null_field.now kind field.now)) }
        ensures err { IfErr result
            (IsFirstBroken (field_breaks self.now.null_field.now row place kind field.now)) }
    {
        if field == self.null_field {
            return Ok(Value::Null);
        }
        match kind {
            Kind::Integer => match integer(field) {
                Some(number) => Ok(Value::Integer(number)),
                None => Err(DataError::NotInteger { row, field: place }),
            },
            Kind::Text => match Chars::new(self.alloc, field)? {
                Some(text) => Ok(Value::Text(text)),
                None => Err(DataError::NotText { row, field: place }),
            },
            Kind::Boolean => Ok(Value::Null),
        }
    }

    /// The rule that a field breaks, if it breaks one. It takes no memory.
    fn broken_by(&self, kind: Kind, field: &[u8], row: u64, place: u64) -> Option<DataError>
        ensures { result ≡ first_of (field_breaks self.now.null_field.now row place kind field.now) }
    {
        if field == self.null_field {
            return None;
        }
        match kind {
            Kind::Integer => match integer(field) {
                Some(_) => None,
                None => Some(DataError::NotInteger { row, field: place }),
            },
            Kind::Text => match std::str::from_utf8(field) {
                Ok(_) => None,
                Err(_) => Some(DataError::NotText { row, field: place }),
            },
            Kind::Boolean => None,
        }
    }

    /// The first rule that a record breaks, if it breaks one. It takes no memory.
    fn first_broken(&self, fields: &ByteRecord, number: u64) -> Option<DataError>
        ensures { result ≡ first_of
            (record_breaks self.now.null_field.now self.now.kinds.now number (fields_of fields.now)) }
    {
        if fields.len() != self.kinds.len() {
            return Some(DataError::Width { row: number });
        }
        for (place, kind) in self.kinds.iter().enumerate() {
            let Some(field) = fields.get(place) else {
                unreachable!()
            };
            let broken = self.broken_by(*kind, field, number, place as u64 + 1);
            if broken.is_some() {
                return broken;
            }
        }
        None
    }

    /// The row that a record spells, or the first rule that it breaks, where there is memory to read so far.
    fn read(&self, fields: &ByteRecord, number: u64) -> Result<Row, DataError>
        ensures ok { IfOk result (λ row.
            (record_breaks self.now.null_field.now self.now.kinds.now number (fields_of fields.now) ≡ [])
            × (row ≡ row_values self.now.null_field.now self.now.kinds.now (fields_of fields.now))) }
        ensures err { IfErr result (IsFirstBroken
            (record_breaks self.now.null_field.now self.now.kinds.now number (fields_of fields.now))) }
    {
        if fields.len() != self.kinds.len() {
            return Err(DataError::Width { row: number });
        }
        let mut row = Row::with_room(self.alloc, self.kinds.len())?;
        for (place, kind) in self.kinds.iter().enumerate() {
            let Some(field) = fields.get(place) else {
                unreachable!()
            };
            row.push(self.value(*kind, field, number, place as u64 + 1)?)?;
        }
        Ok(row)
    }

    /// The row that a record spells, or the first rule that it breaks. Want of memory hides no broken rule of the record.
    fn row(&self, fields: &ByteRecord, number: u64) -> Result<Row, DataError>
        ensures ok { IfOk result (λ row.
            (record_breaks self.now.null_field.now self.now.kinds.now number (fields_of fields.now) ≡ [])
            × (row ≡ row_values self.now.null_field.now self.now.kinds.now (fields_of fields.now))) }
        ensures err { IfErr result (IsFirstBroken
            (record_breaks self.now.null_field.now self.now.kinds.now number (fields_of fields.now))) }
        ensures memory { result ≡ Err fault.NoMemory
            → record_breaks self.now.null_field.now self.now.kinds.now number (fields_of fields.now) ≡ [] }
    {
        match self.read(fields, number) {
            Ok(row) => Ok(row),
            Err(DataError::NoMemory) => match self.first_broken(fields, number) {
                Some(broken) => Err(broken),
                None => Err(DataError::NoMemory),
            },
            Err(broken) => Err(broken),
        }
    }
}

/// The rows that the bytes of a CSV file spell, one for each record.
///
/// Records and fields are those that the `csv` crate reads by default (RFC 4180, with any line end, and without blank
/// lines and a byte order mark). With `header` the first record is left out, whatever it holds, and still counts. A
/// field whose bytes equal `null_field` is NULL in every column; quotes around it are no part of it. Any other field is an
/// optional sign and digits that fit 64 bits in a column of integers, and UTF-8 in one of texts. No field spells a
/// boolean: in a column of booleans, which no table has, each reads as NULL.
///
/// A file that breaks a rule is refused with the first: in the order of records, which count from 1, and in a record
/// its width before its fields from left to right. `NoMemory` may come at any time.
pub fn load(
    alloc: Global,
    bytes: &[u8],
    kinds: &[Kind],
    null_field: &[u8],
    header: bool,
) -> Result<Rows, DataError>
    ensures ok { IfOk result (λ rows. (broken_rules null_field.now kinds.now header bytes.now ≡ [])
        × (rows ≡ spelled_rows null_field.now kinds.now header bytes.now)) }
    ensures fit { IfOk result (λ rows. IsTrue (bag_fits rows kinds.now)) }
    ensures err { IfErr result (IsFirstBroken (broken_rules null_field.now kinds.now header bytes.now)) }
{
    let columns = Columns {
        alloc,
        kinds,
        null_field,
    };
    let reader = ReaderBuilder::new()
        .has_headers(false)
        .flexible(true)
        .from_reader(alloc, bytes);
    let mut rows = List::new(alloc);
    let mut skip = header;
    for entry in reader.into_byte_records() {
        let fields = entry?;
        if skip {
            skip = false;
        } else {
            let number = rows.len() as u64 + u64::from(header) + 1;
            rows.push(columns.row(&fields, number)?)?;
        }
    }
    rows.tighten();
    Ok(rows)
}
