//! What people try from other SQLs, and what they may write here.
ghost use Rattle.std.specs.Prelude.{◌≡◌};
ghost use Rattle.refusal_hints.specs.Advice.{advice_in};
ghost use Rattle.refusal_hints.specs.Tables.{call_texts, column_texts, name_texts, query_texts, script_texts, statement_words, texts};

use crate::advice::{Advised, advice_in};
use crate::slices::or_else;

const AVERAGES: &[u8] = b"there is no AVG: SUM(x) / COUNT(x) is it, cut to a whole number";

const OFFSETS: &[u8] = b"there is no OFFSET: LIMIT takes the first rows";

const TOPS: &[u8] = b"there is no TOP: write LIMIT behind the query";

const COMMON_QUERIES: &[u8] =
    b"there is no WITH: write the query in FROM, or make a view of it (CREATE VIEW name AS query)";

const UPDATES: &[u8] =
    b"there is no UPDATE: delete the rows and insert others, or make a table of a query (CREATE TABLE name AS query)";

const WINDOWS: &[u8] = b"there are no window functions (OVER)";

const JOINED_TEXTS: &[u8] = b"texts can't be joined: there is no ||, and no CONCAT";

const CASTS: &[u8] =
    b"no kind is changed to another: CAST and :: are there for NULL alone, as CAST(NULL AS INTEGER)";

const DATES: &[u8] = b"there are no dates: texts such as '2024-01-31' are in the order of dates";

const USINGS: &[u8] = b"there is no USING: write ON x.id = y.id";

const DECIMALS: &[u8] = b"columns are INTEGER or TEXT: keep a decimal as a whole number, as cents";

const TEXT_KINDS: &[u8] = b"a column of texts is TEXT, without a length";

const TRUTHS: &[u8] = b"no column holds truth values: keep 0 and 1 in an INTEGER";

const POINTS: &[u8] =
    b"numbers are whole: write 1250 cents for 12.50; and a name has one point at most, as in item.column";

const COMMENTS: &[u8] = b"comments begin with -- and end with their line";

const EQUALS: &[u8] = b"two values are compared by one =";

const KEYS: &[u8] =
    b"a column is a name and a kind: there are no keys, defaults and other constraints, and each column may hold NULL";

const CONDITIONS: &[u8] = b"there is no IF EXISTS and no IF NOT EXISTS";

const PATTERNS: &[u8] =
    b"texts are matched by LIKE alone, which tells capitals from small letters and has no ESCAPE";

const NULLS: &[u8] = b"NULL comes last, and first under DESC: there is no NULLS FIRST";

const FILTERS: &[u8] = b"aggregates have no FILTER: write SUM(CASE WHEN condition THEN x END)";

const FUNCTIONS: &[u8] = b"the functions are COUNT, SUM, MIN, MAX, COALESCE and NULLIF";

const ALTERATIONS: &[u8] =
    b"there is no ALTER: make a new table of a query (CREATE TABLE name AS query)";

const TRANSACTIONS: &[u8] = b"there are no transactions: a script ends at the first refusal";

const CASES: &[u8] = b"there is no CASE x WHEN: write CASE WHEN x = 1 THEN .. END";

const NAMES: &[u8] = b"a name that is no plain word stands in double quotes";

const QUOTES: &[u8] = b"a quote in a text is written twice, as in 'it''s'";

const PARAMETERS: &[u8] = b"there are no parameters";

const SIGNS: &[u8] = b"there is no sign +";

const EXPLAINS: &[u8] = b"EXPLAIN REWRITE query is the only EXPLAIN";

const PRINTED_QUOTES: &[u8] =
    b"a text stands between ', a name between \", and a minus is -: these are other characters";

const WIDE_BLANKS: &[u8] = b"this blank is another character than a plain one";

const MARKS: &[u8] = b"the file begins with a byte order mark: save it without one";

const WIDE_TEXTS: &[u8] = b"the file is UTF-16: save it as UTF-8";

const NATURAL_JOINS: &[u8] = b"there is no NATURAL JOIN: write ON x.id = y.id";

const INSERTS: &[u8] =
    b"an INSERT is INSERT INTO name VALUES (..), (..): it names no columns and takes no query";

const COPIES: &[u8] =
    b"a COPY is COPY name FROM 'file' HEADER NULL 'text', of which the last two may lack: a comma is the only separator";

const ROW_NUMBERS: &[u8] = b"rows have no number of their own";

const TEXT_QUOTES: &[u8] = b"double quotes stand around names: a text stands between single ones";

const QUERY_TEXTS: [Advised; 26] = [
    Advised {
        text: b"avg",
        advice: AVERAGES,
    },
    Advised {
        text: b"offset",
        advice: OFFSETS,
    },
    Advised {
        text: b"fetch",
        advice: OFFSETS,
    },
    Advised {
        text: b"top",
        advice: TOPS,
    },
    Advised {
        text: b"with",
        advice: COMMON_QUERIES,
    },
    Advised {
        text: b"update",
        advice: UPDATES,
    },
    Advised {
        text: b"merge",
        advice: UPDATES,
    },
    Advised {
        text: b"over",
        advice: WINDOWS,
    },
    Advised {
        text: b"row_number",
        advice: WINDOWS,
    },
    Advised {
        text: b"rank",
        advice: WINDOWS,
    },
    Advised {
        text: b"dense_rank",
        advice: WINDOWS,
    },
    Advised {
        text: b"lag",
        advice: WINDOWS,
    },
    Advised {
        text: b"lead",
        advice: WINDOWS,
    },
    Advised {
        text: b"||",
        advice: JOINED_TEXTS,
    },
    Advised {
        text: b"concat",
        advice: JOINED_TEXTS,
    },
    Advised {
        text: b"cast",
        advice: CASTS,
    },
    Advised {
        text: b"::",
        advice: CASTS,
    },
    Advised {
        text: b"date",
        advice: DATES,
    },
    Advised {
        text: b"time",
        advice: DATES,
    },
    Advised {
        text: b"timestamp",
        advice: DATES,
    },
    Advised {
        text: b"datetime",
        advice: DATES,
    },
    Advised {
        text: b"interval",
        advice: DATES,
    },
    Advised {
        text: b"now",
        advice: DATES,
    },
    Advised {
        text: b"extract",
        advice: DATES,
    },
    Advised {
        text: b"strftime",
        advice: DATES,
    },
    Advised {
        text: b"using",
        advice: USINGS,
    },
];

/// The advice for what people try in a query.
fn query_advice(text: &[u8]) -> &'static [u8]
    ensures { result.now ≡ advice_in query_texts text.now }
{
    advice_in(&QUERY_TEXTS, text)
}

const COLUMN_TEXTS: [Advised; 27] = [
    Advised {
        text: b"decimal",
        advice: DECIMALS,
    },
    Advised {
        text: b"numeric",
        advice: DECIMALS,
    },
    Advised {
        text: b"real",
        advice: DECIMALS,
    },
    Advised {
        text: b"float",
        advice: DECIMALS,
    },
    Advised {
        text: b"double",
        advice: DECIMALS,
    },
    Advised {
        text: b"money",
        advice: DECIMALS,
    },
    Advised {
        text: b"varchar",
        advice: TEXT_KINDS,
    },
    Advised {
        text: b"char",
        advice: TEXT_KINDS,
    },
    Advised {
        text: b"character",
        advice: TEXT_KINDS,
    },
    Advised {
        text: b"nvarchar",
        advice: TEXT_KINDS,
    },
    Advised {
        text: b"string",
        advice: TEXT_KINDS,
    },
    Advised {
        text: b"boolean",
        advice: TRUTHS,
    },
    Advised {
        text: b"bool",
        advice: TRUTHS,
    },
    Advised {
        text: b".",
        advice: POINTS,
    },
    Advised {
        text: b"/*",
        advice: COMMENTS,
    },
    Advised {
        text: b"//",
        advice: COMMENTS,
    },
    Advised {
        text: b"#",
        advice: COMMENTS,
    },
    Advised {
        text: b"==",
        advice: EQUALS,
    },
    Advised {
        text: b"primary",
        advice: KEYS,
    },
    Advised {
        text: b"unique",
        advice: KEYS,
    },
    Advised {
        text: b"references",
        advice: KEYS,
    },
    Advised {
        text: b"check",
        advice: KEYS,
    },
    Advised {
        text: b"constraint",
        advice: KEYS,
    },
    Advised {
        text: b"foreign",
        advice: KEYS,
    },
    Advised {
        text: b"default",
        advice: KEYS,
    },
    Advised {
        text: b"not",
        advice: KEYS,
    },
    Advised {
        text: b"if",
        advice: CONDITIONS,
    },
];

/// The advice for kinds, for marks, and for what people write behind a column.
fn column_advice(text: &[u8]) -> &'static [u8]
    ensures { result.now ≡ advice_in column_texts text.now }
{
    advice_in(&COLUMN_TEXTS, text)
}

const CALL_TEXTS: [Advised; 25] = [
    Advised {
        text: b"ilike",
        advice: PATTERNS,
    },
    Advised {
        text: b"regexp",
        advice: PATTERNS,
    },
    Advised {
        text: b"similar",
        advice: PATTERNS,
    },
    Advised {
        text: b"glob",
        advice: PATTERNS,
    },
    Advised {
        text: b"escape",
        advice: PATTERNS,
    },
    Advised {
        text: b"nulls",
        advice: NULLS,
    },
    Advised {
        text: b"filter",
        advice: FILTERS,
    },
    Advised {
        text: b"length",
        advice: FUNCTIONS,
    },
    Advised {
        text: b"upper",
        advice: FUNCTIONS,
    },
    Advised {
        text: b"lower",
        advice: FUNCTIONS,
    },
    Advised {
        text: b"substr",
        advice: FUNCTIONS,
    },
    Advised {
        text: b"substring",
        advice: FUNCTIONS,
    },
    Advised {
        text: b"trim",
        advice: FUNCTIONS,
    },
    Advised {
        text: b"replace",
        advice: FUNCTIONS,
    },
    Advised {
        text: b"round",
        advice: FUNCTIONS,
    },
    Advised {
        text: b"abs",
        advice: FUNCTIONS,
    },
    Advised {
        text: b"floor",
        advice: FUNCTIONS,
    },
    Advised {
        text: b"ceil",
        advice: FUNCTIONS,
    },
    Advised {
        text: b"mod",
        advice: FUNCTIONS,
    },
    Advised {
        text: b"iif",
        advice: FUNCTIONS,
    },
    Advised {
        text: b"ifnull",
        advice: FUNCTIONS,
    },
    Advised {
        text: b"nvl",
        advice: FUNCTIONS,
    },
    Advised {
        text: b"string_agg",
        advice: FUNCTIONS,
    },
    Advised {
        text: b"group_concat",
        advice: FUNCTIONS,
    },
    Advised {
        text: b"total",
        advice: FUNCTIONS,
    },
];

/// The advice for what people try in a condition, and for functions.
fn call_advice(text: &[u8]) -> &'static [u8]
    ensures { result.now ≡ advice_in call_texts text.now }
{
    advice_in(&CALL_TEXTS, text)
}

const SCRIPT_TEXTS: [Advised; 21] = [
    Advised {
        text: b"alter",
        advice: ALTERATIONS,
    },
    Advised {
        text: b"truncate",
        advice: ALTERATIONS,
    },
    Advised {
        text: b"begin",
        advice: TRANSACTIONS,
    },
    Advised {
        text: b"start",
        advice: TRANSACTIONS,
    },
    Advised {
        text: b"commit",
        advice: TRANSACTIONS,
    },
    Advised {
        text: b"rollback",
        advice: TRANSACTIONS,
    },
    Advised {
        text: b"case",
        advice: CASES,
    },
    Advised {
        text: b"[",
        advice: NAMES,
    },
    Advised {
        text: b"`",
        advice: NAMES,
    },
    Advised {
        text: b"'",
        advice: QUOTES,
    },
    Advised {
        text: b"?",
        advice: PARAMETERS,
    },
    Advised {
        text: b"$",
        advice: PARAMETERS,
    },
    Advised {
        text: b"@",
        advice: PARAMETERS,
    },
    Advised {
        text: b":",
        advice: PARAMETERS,
    },
    Advised {
        text: b"+",
        advice: SIGNS,
    },
    Advised {
        text: b"explain",
        advice: EXPLAINS,
    },
    Advised {
        text: b"\xe2\x80",
        advice: PRINTED_QUOTES,
    },
    Advised {
        text: b"\xc2\xa0",
        advice: WIDE_BLANKS,
    },
    Advised {
        text: b"\xef\xbb",
        advice: MARKS,
    },
    Advised {
        text: b"\xff\xfe",
        advice: WIDE_TEXTS,
    },
    Advised {
        text: b"\xfe\xff",
        advice: WIDE_TEXTS,
    },
];

/// The advice for what people try as a statement, and for other marks.
fn script_advice(text: &[u8]) -> &'static [u8]
    ensures { result.now ≡ advice_in script_texts text.now }
{
    advice_in(&SCRIPT_TEXTS, text)
}

/// The advice for a text where a script is refused, or just before.
pub(crate) fn text_advice(text: &[u8]) -> &'static [u8]
    ensures { result.now ≡ advice_in texts text.now }
{
    let further = or_else(call_advice(text), script_advice(text));
    or_else(query_advice(text), or_else(column_advice(text), further))
}

const STATEMENT_WORDS: [Advised; 3] = [
    Advised {
        text: b"natural",
        advice: NATURAL_JOINS,
    },
    Advised {
        text: b"insert",
        advice: INSERTS,
    },
    Advised {
        text: b"copy",
        advice: COPIES,
    },
];

/// The advice for a word of a statement that is refused further behind.
#[tactic(auto, unfolding(crate::specs::Tables::statement_words))]
pub(crate) fn statement_advice(text: &[u8]) -> &'static [u8]
    ensures { result.now ≡ advice_in statement_words text.now }
{
    advice_in(&STATEMENT_WORDS, text)
}

const NAME_TEXTS: [Advised; 8] = [
    Advised {
        text: b"current_date",
        advice: DATES,
    },
    Advised {
        text: b"current_time",
        advice: DATES,
    },
    Advised {
        text: b"current_timestamp",
        advice: DATES,
    },
    Advised {
        text: b"sysdate",
        advice: DATES,
    },
    Advised {
        text: b"rowid",
        advice: ROW_NUMBERS,
    },
    Advised {
        text: b"rownum",
        advice: ROW_NUMBERS,
    },
    Advised {
        text: b"ctid",
        advice: ROW_NUMBERS,
    },
    Advised {
        text: b"\"",
        advice: TEXT_QUOTES,
    },
];

/// The advice for what stands in the place of a name.
#[tactic(auto, unfolding(crate::specs::Tables::name_texts))]
pub(crate) fn name_advice(text: &[u8]) -> &'static [u8]
    ensures { result.now ≡ advice_in name_texts text.now }
{
    advice_in(&NAME_TEXTS, text)
}
