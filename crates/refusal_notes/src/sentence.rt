//! What a person is told of a cause, by the number of its code.
ghost use Rattle.std.specs.Prelude.{◌≡◌};
ghost use Rattle.refusal_notes.specs.Sentences.{fault_sentence, file_sentence, kind_sentence, limit_sentence, name_sentence, sentence, spelling_sentence};

/// The sentence of the code of this number; none where there is none of it.
pub(crate) fn sentence(code: u8) -> &'static [u8]
    ensures { result.now ≡ sentence code }
{
    if code < 10 {
        spelling_sentence(code)
    } else if code < 20 {
        name_sentence(code)
    } else if code < 26 {
        kind_sentence(code)
    } else if code < 30 {
        limit_sentence(code)
    } else if code < 40 {
        fault_sentence(code)
    } else {
        file_sentence(code)
    }
}

/// The sentence of a break of spelling.
fn spelling_sentence(code: u8) -> &'static [u8]
    ensures { result.now ≡ spelling_sentence code }
{
    match code {
        1 => b"the script isn't UTF-8 from here on",
        2 => b"this character begins no token",
        3 => b"this quote isn't closed",
        4 => b"this integer is above 9223372036854775807",
        5 => b"this token can't stand here, or the script ends too early",
        6 => b"this is the 65th parenthesis or CASE that is open",
        _ => b"",
    }
}

/// The sentence of a break of names.
fn name_sentence(code: u8) -> &'static [u8]
    ensures { result.now ≡ name_sentence code }
{
    match code {
        10 => b"no table or view of this name",
        11 => b"no column of this name",
        12 => b"two columns have this name",
        13 => b"a table or view has this name already",
        14 => b"a column is named twice",
        15 => b"an earlier item of FROM has this name",
        16 => b"a view names what is to be dropped",
        _ => b"",
    }
}

/// The sentence of a break of kinds or of places.
fn kind_sentence(code: u8) -> &'static [u8]
    ensures { result.now ≡ kind_sentence code }
{
    match code {
        20 => b"this is of another kind than is needed",
        21 => b"this has another number of columns than is needed",
        22 => b"this column is in no aggregate and not in GROUP BY",
        23 => b"an aggregate can't stand here, or not over this column",
        24 => b"a subquery can't stand here",
        25 => b"PROVENANCE can't stand here",
        _ => b"",
    }
}

/// The sentence of a break of limits.
fn limit_sentence(code: u8) -> &'static [u8]
    ensures { result.now ≡ limit_sentence code }
{
    match code {
        26 => b"a table may have 256 columns, and a query 1,024",
        27 => b"this query is too large, with what its views stand for",
        28 => b"this query may gain rows where a table loses some",
        _ => b"",
    }
}

/// The sentence of a fault that a statement meets.
fn fault_sentence(code: u8) -> &'static [u8]
    ensures { result.now ≡ fault_sentence code }
{
    match code {
        30 => b"this statement divides by zero",
        31 => b"this statement meets a number that 64 bits don't hold",
        32 => b"a subquery of this statement that stands for one value has several rows",
        _ => b"",
    }
}

/// The sentence of a file.
fn file_sentence(code: u8) -> &'static [u8]
    ensures { result.now ≡ file_sentence code }
{
    match code {
        40 => b"there is no file of the name that is given",
        41 => b"the file is too long: a script may have 2^20 bytes, and a file to copy 2^26",
        42 => b"this record has another number of fields than the table has columns",
        43 => b"this field isn't an integer",
        44 => b"this field isn't UTF-8",
        50 => b"this file couldn't be opened or read",
        _ => b"",
    }
}
