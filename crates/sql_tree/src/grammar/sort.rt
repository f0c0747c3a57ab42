ghost use Rattle.std.specs.Prelude.{◌≡◌, map};
ghost use Rattle.std.specs.List.{list_any};
ghost use Rattle.std.specs.Str.{str_to_ascii_lowercase};
ghost use Rattle.sql_tree.specs.grammar.Sorts as spec;

use sql_lexer::{Token, TokenKind, is_word};

/// What the grammar tells tokens apart by: each word that it names, each symbol, and the rest by what they are.
#[derive(Clone, Copy, PartialEq, Eq)]
pub enum Sort {
    /// A word that the grammar doesn't name, which is a name.
    Plain,
    /// A name between double quotes.
    Quoted,
    /// A number.
    Digits,
    /// A text between single quotes.
    Literal,
    /// A symbol that the grammar doesn't name.
    Other,
    Opening,
    Closing,
    Comma,
    Semicolon,
    Dot,
    Star,
    Plus,
    Minus,
    Slash,
    Percent,
    Equal,
    NotEqual,
    Less,
    LessEqual,
    Greater,
    GreaterEqual,
    All,
    And,
    Any,
    As,
    Asc,
    BaseRelation,
    Between,
    By,
    Case,
    Cast,
    Create,
    Cross,
    Delete,
    Desc,
    Distinct,
    Drop,
    Else,
    End,
    Except,
    Exists,
    False,
    From,
    Full,
    Group,
    Having,
    In,
    Inner,
    Insert,
    Intersect,
    Into,
    Is,
    Join,
    Left,
    Like,
    Limit,
    Not,
    Null,
    On,
    Or,
    Order,
    Outer,
    Provenance,
    Right,
    Select,
    Some,
    Table,
    Then,
    True,
    Union,
    Unknown,
    Values,
    When,
    Where,
    // Words that are names wherever the grammar doesn't ask for them.
    View,
    Copy,
    Header,
    Explain,
    Rewrite,
    Show,
    Fresh,
    Impact,
    Of,
    Lateral,
    Integer,
    Int,
    BigInt,
    Text,
    Boolean,
    Count,
    Sum,
    Min,
    Max,
    Coalesce,
    NullIf,
}

// The words of the grammar, in lower case, by the number of their letters.

const WORDS_OF_2: [(&str, Sort); 7] = [
    ("as", Sort::As),
    ("by", Sort::By),
    ("in", Sort::In),
    ("is", Sort::Is),
    ("on", Sort::On),
    ("or", Sort::Or),
    ("of", Sort::Of),
];

const WORDS_OF_3: [(&str, Sort); 10] = [
    ("all", Sort::All),
    ("and", Sort::And),
    ("any", Sort::Any),
    ("asc", Sort::Asc),
    ("end", Sort::End),
    ("not", Sort::Not),
    ("int", Sort::Int),
    ("sum", Sort::Sum),
    ("min", Sort::Min),
    ("max", Sort::Max),
];

const WORDS_OF_4: [(&str, Sort); 20] = [
    ("case", Sort::Case),
    ("cast", Sort::Cast),
    ("desc", Sort::Desc),
    ("drop", Sort::Drop),
    ("else", Sort::Else),
    ("from", Sort::From),
    ("full", Sort::Full),
    ("into", Sort::Into),
    ("join", Sort::Join),
    ("left", Sort::Left),
    ("like", Sort::Like),
    ("null", Sort::Null),
    ("some", Sort::Some),
    ("then", Sort::Then),
    ("true", Sort::True),
    ("when", Sort::When),
    ("view", Sort::View),
    ("copy", Sort::Copy),
    ("show", Sort::Show),
    ("text", Sort::Text),
];

const WORDS_OF_5: [(&str, Sort); 13] = [
    ("cross", Sort::Cross),
    ("false", Sort::False),
    ("group", Sort::Group),
    ("inner", Sort::Inner),
    ("limit", Sort::Limit),
    ("order", Sort::Order),
    ("outer", Sort::Outer),
    ("right", Sort::Right),
    ("table", Sort::Table),
    ("union", Sort::Union),
    ("where", Sort::Where),
    ("fresh", Sort::Fresh),
    ("count", Sort::Count),
];

const WORDS_OF_6: [(&str, Sort); 12] = [
    ("create", Sort::Create),
    ("delete", Sort::Delete),
    ("except", Sort::Except),
    ("exists", Sort::Exists),
    ("having", Sort::Having),
    ("insert", Sort::Insert),
    ("select", Sort::Select),
    ("values", Sort::Values),
    ("header", Sort::Header),
    ("impact", Sort::Impact),
    ("bigint", Sort::BigInt),
    ("nullif", Sort::NullIf),
];

const WORDS_OF_7: [(&str, Sort); 7] = [
    ("between", Sort::Between),
    ("unknown", Sort::Unknown),
    ("explain", Sort::Explain),
    ("rewrite", Sort::Rewrite),
    ("lateral", Sort::Lateral),
    ("integer", Sort::Integer),
    ("boolean", Sort::Boolean),
];

const WORDS_OF_8: [(&str, Sort); 2] = [("distinct", Sort::Distinct), ("coalesce", Sort::Coalesce)];

const WORDS_OF_9: [(&str, Sort); 1] = [("intersect", Sort::Intersect)];

const WORDS_OF_10: [(&str, Sort); 1] = [("provenance", Sort::Provenance)];

const WORDS_OF_12: [(&str, Sort); 1] = [("baserelation", Sort::BaseRelation)];

/// The symbols of the grammar, as tokens hold them.
pub const SYMBOLS: [(&str, Sort); 16] = [
    ("(", Sort::Opening),
    (")", Sort::Closing),
    (",", Sort::Comma),
    (";", Sort::Semicolon),
    (".", Sort::Dot),
    ("*", Sort::Star),
    ("+", Sort::Plus),
    ("-", Sort::Minus),
    ("/", Sort::Slash),
    ("%", Sort::Percent),
    ("=", Sort::Equal),
    ("<>", Sort::NotEqual),
    ("<", Sort::Less),
    ("<=", Sort::LessEqual),
    (">", Sort::Greater),
    (">=", Sort::GreaterEqual),
];

/// The sorts of tokens that may be a name.
pub const NAMES: [Sort; 23] = [
    Sort::Plain,
    Sort::Quoted,
    Sort::View,
    Sort::Copy,
    Sort::Header,
    Sort::Explain,
    Sort::Rewrite,
    Sort::Show,
    Sort::Fresh,
    Sort::Impact,
    Sort::Of,
    Sort::Lateral,
    Sort::Integer,
    Sort::Int,
    Sort::BigInt,
    Sort::Text,
    Sort::Boolean,
    Sort::Count,
    Sort::Sum,
    Sort::Min,
    Sort::Max,
    Sort::Coalesce,
    Sort::NullIf,
];

/// The sort that a table gives a word, or `Plain`.
fn word_listed(mut table: &[(&str, Sort)], word: &[u8]) -> Sort
    ensures { result ≡ spec.listed (map (λ entry. (entry.0.now, entry.1)) table.entry.now)
        (str_to_ascii_lowercase word.now) Sort.Plain }
{
    while let [entry, rest @ ..] = table {
        if is_word(word, entry.0.as_bytes()) {
            return entry.1;
        }
        table = rest;
    }
    Sort::Plain
}

/// The sort that a table gives a symbol, or `Other`.
fn symbol_listed(mut table: &[(&str, Sort)], symbol: &[u8]) -> Sort
    ensures { result ≡ spec.listed (map (λ entry. (entry.0.now, entry.1)) table.entry.now) symbol.now
        Sort.Other }
{
    while let [entry, rest @ ..] = table {
        if entry.0.as_bytes() == symbol {
            return entry.1;
        }
        table = rest;
    }
    Sort::Other
}

/// The sort of a word, which is looked up among the words that are as long.
fn word_sort(word: &[u8]) -> Sort
    ensures { result ≡ spec.word_sort (str_to_ascii_lowercase word.now) }
{
    let len = word.len();
    if len == 2 {
        word_listed(&WORDS_OF_2, word)
    } else if len == 3 {
        word_listed(&WORDS_OF_3, word)
    } else if len == 4 {
        word_listed(&WORDS_OF_4, word)
    } else if len == 5 {
        word_listed(&WORDS_OF_5, word)
    } else if len == 6 {
        word_listed(&WORDS_OF_6, word)
    } else if len == 7 {
        word_listed(&WORDS_OF_7, word)
    } else if len == 8 {
        word_listed(&WORDS_OF_8, word)
    } else if len == 9 {
        word_listed(&WORDS_OF_9, word)
    } else if len == 10 {
        word_listed(&WORDS_OF_10, word)
    } else if len == 12 {
        word_listed(&WORDS_OF_12, word)
    } else {
        Sort::Plain
    }
}

/// The sort of a symbol.
#[tactic(auto, unfolding(crate::specs::grammar::Sorts::symbol_sort))]
fn symbol_sort(symbol: &[u8]) -> Sort
    ensures { result ≡ spec.symbol_sort symbol.now }
{
    symbol_listed(&SYMBOLS, symbol)
}

/// The sort of a token.
pub fn sort_of(token: &Token<'_>) -> Sort
    ensures { result ≡ spec.sort_of token.now }
{
    match token.kind() {
        TokenKind::Word => word_sort(token.text()),
        TokenKind::Quoted => Sort::Quoted,
        TokenKind::Number => Sort::Digits,
        TokenKind::Text => Sort::Literal,
        TokenKind::Symbol => symbol_sort(token.text()),
    }
}

/// Whether two sorts are the same.
#[tactic(auto, unfolding(crate::specs::grammar::Sorts::same_sort))]
pub fn same_sort(one: Sort, other: Sort) -> bool
    ensures { result ≡ spec.same_sort one other }
{
    one == other
}

/// Whether a sort is one of these.
pub fn is_among(found: Sort, sorts: &[Sort]) -> bool
    ensures { result ≡ list_any (spec.same_sort found) sorts.now }
{
    sorts.iter().any(|sort| same_sort(found, *sort))
}
