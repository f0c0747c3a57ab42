//! Fields of CSV files (`csv_tables`): the rows that they spell, and where they spell none.
use crate::answers::{Field, rows_of, same_set};
use csv_tables::{DataError, load};
use perm_values::Kind;
use std::alloc::Global;
use std::test::Fail;

/// Whether a file of one record for a column of integers and one of texts has this row.
fn spells(alloc: Global, bytes: &[u8], row: &[Field<'_>]) -> Result<bool, DataError> {
    let kinds = [Kind::Integer, Kind::Text];
    let wanted = rows_of(alloc, &[row])?;
    let rows = load(alloc, bytes, kinds.as_slice(), b"", false)?;
    Ok(rows.len() == 1 && same_set(&rows, &wanted))
}

#[test]
fn fields_spell_values(rt: HostRuntime) -> Result<(), Fail> {
    let cases: [(&[u8], &[Field<'_>]); 3] = [
        (
            b"-9223372036854775808,",
            &[Field::Number(i64::MIN), Field::Null],
        ),
        (b"+5,x", &[Field::Number(5), Field::Word("x")]),
        (
            b"9223372036854775807,\"-\"",
            &[Field::Number(i64::MAX), Field::Word("-")],
        ),
    ];
    for (bytes, row) in cases {
        assert!(rt; spells(rt.alloc(), bytes, row) == Ok(true));
    }
    Ok(())
}

/// How many rows the bytes have for a column of integers and one of texts, where that field is NULL.
fn loaded(alloc: Global, bytes: &[u8], null_field: &[u8]) -> Result<usize, DataError> {
    let kinds = [Kind::Integer, Kind::Text];
    Ok(load(alloc, bytes, kinds.as_slice(), null_field, false)?.len())
}

#[test]
fn fields_that_spell_no_value(rt: HostRuntime) -> Result<(), Fail> {
    let first = Err(DataError::NotInteger { row: 1, field: 1 });
    let cases: [(&[u8], &[u8], Result<usize, DataError>); 8] = [
        (b"9223372036854775808,x", b"", first),
        (b"-9223372036854775809,x", b"", first),
        (b",x", b"-", first),
        (b" 5,x", b"", first),
        (b"1,\xff", b"", Err(DataError::NotText { row: 1, field: 2 })),
        (b"1,x\n2", b"", Err(DataError::Width { row: 2 })),
        (b"1\nz,x", b"", Err(DataError::Width { row: 1 })),
        (b"", b"", Ok(0)),
    ];
    for (bytes, null_field, want) in cases {
        assert!(rt; loaded(rt.alloc(), bytes, null_field) == want);
    }
    Ok(())
}
