//! Lays the text of a query out in lines.
//! Which blanks stand behind each token of a text.
ghost use Rattle.std.specs.Prelude.{◌≡◌, [], ◌∷◌, IfOk, IsTrue, MatchOption};
ghost use Rattle.tree_texts.specs.declared.layout.Gap.TheVariants.{Nothing};
ghost use Rattle.tree_texts.specs.layout.Woven.{IsSymbol, MayTouch};

use perm_values::{List, NoMemory};
use sql_lexer::{Token, TokenKind};
use std::alloc::Global;

mod lines;
mod weaving;

pub use lines::in_lines;

/// No query begins further in, however deep it stands, so that a text is about as long as its tokens.
const DEEPEST: usize = 20;

/// A query in parentheses that takes no more bytes may stand in a line.
const SHORT: usize = 100;

/// A line that has more bytes ends behind the next comma.
const WIDE: usize = 90;

/// What stands between two tokens: nothing, a blank, or a line's end, and then the next line begins so far in.
#[derive(Clone, Copy)]
pub(crate) enum Gap {
    Nothing,
    Blank,
    Line(usize),
}

/// The bytes of a word; of other tokens none.
fn word<'a>(token: &Token<'a>) -> &'a [u8] {
    match token.kind() {
        TokenKind::Word => token.text(),
        TokenKind::Quoted | TokenKind::Number | TokenKind::Text | TokenKind::Symbol => b"",
    }
}

/// The byte of a symbol that has one.
fn symbol(token: &Token) -> Option<u8>
    ensures { MatchOption result Unit (λ byte. IsSymbol byte token.now) }
{
    match token.text() {
        [byte] if token.kind() == TokenKind::Symbol => Some(*byte),
        _ => None,
    }
}

/// Whether a word begins a clause, a source or an operand.
fn begins_part(word: &[u8]) -> bool {
    matches!(
        word,
        b"FROM" | b"WHERE" | b"GROUP" | b"HAVING" | b"ORDER" | b"LIMIT"
    ) || begins_query(word)
}

/// Whether a word begins a query or what it is joined or united with.
fn begins_query(word: &[u8]) -> bool {
    matches!(
        word,
        b"SELECT" | b"UNION" | b"INTERSECT" | b"EXCEPT" | b"JOIN"
    ) || begins_join(word)
}

/// Whether a word stands before JOIN.
fn begins_join(word: &[u8]) -> bool {
    matches!(word, b"LEFT" | b"RIGHT" | b"FULL" | b"CROSS")
}

/// Whether a line ends between two words: not between those of a join, nor inside IS NOT DISTINCT FROM.
fn breaks(word: &[u8], next: &[u8]) -> bool {
    begins_part(next) && !begins_join(word) && word != b"DISTINCT".as_slice()
}

fn is_function(word: &[u8]) -> bool {
    matches!(
        word,
        b"COUNT" | b"SUM" | b"MIN" | b"MAX" | b"COALESCE" | b"NULLIF" | b"CAST"
    )
}

/// Whether two tokens stand side by side: what is in parentheses at these, commas and points at what they follow.
fn touches(token: &Token, next: &Token) -> bool
    ensures { IsTrue result → MayTouch token.now (next.now ∷ []) }
{
    match (symbol(token), symbol(next)) {
        (Some(b'(' | b'.'), _) => true,
        (_, Some(b')' | b',' | b'.')) => true,
        (_, Some(b'(')) => is_function(word(token)),
        _ => false,
    }
}

/// What a parenthesis holds: no query, a query that stands in its line, or one that stands in lines of its own.
#[derive(Clone, Copy)]
enum Inside {
    Operands,
    ShortQuery,
    Query,
}

/// What a parenthesis holds that these tokens follow.
fn inside_of(others: &[Token]) -> Inside {
    match others {
        [next, rest @ ..] if word(next) == b"SELECT".as_slice() => {
            if is_short(rest) {
                Inside::ShortQuery
            } else {
                Inside::Query
            }
        }
        _ => Inside::Operands,
    }
}

/// Whether a query, of which these tokens stand behind the first word, takes few bytes and holds no other query and no join.
fn is_short(rest: &[Token]) -> bool {
    let mut bytes: usize = 0;
    let mut open: usize = 0;
    for token in rest {
        bytes = bytes.saturating_add(room(token));
        if bytes > SHORT || begins_query(word(token)) {
            return false;
        }
        match symbol(token) {
            Some(b'(') => open = open.saturating_add(1),
            Some(b')') if open == 0 => return true,
            Some(b')') => open = open.saturating_sub(1),
            _ => (),
        }
    }
    false
}

/// The bytes of a token and of a blank behind it.
fn room(token: &Token) -> usize {
    token.end().saturating_sub(token.start()).saturating_add(1)
}

/// What is open where a text is laid out: what each parenthesis holds, how many of them hold queries in lines of their own, whether
/// the innermost query stands in a line, and how many bytes that line has behind its blanks.
#[derive(Drop)]
pub(crate) struct Layout {
    open: List<Inside>,
    depth: usize,
    in_line: bool,
    bytes: usize,
}

impl Layout {
    pub(crate) fn new(alloc: Global) -> Layout {
        Layout {
            open: List::new(alloc),
            depth: 0,
            in_line: false,
            bytes: 0,
        }
    }

    /// What stands behind a token that these follow.
    pub(crate) fn behind(&mut self, token: &Token, others: &[Token]) -> Result<Gap, NoMemory>
        ensures { IfOk result (λ gap. gap ≡ Nothing → MayTouch token.now others.now) }
    {
        if symbol(token) == Some(b'(') {
            self.begin(inside_of(others))?;
        }
        self.bytes = self.bytes.saturating_add(room(token));
        let gap = match others {
            [next, ..] => self.between(token, next),
            [] => Gap::Nothing,
        };
        if matches!(gap, Gap::Line(_)) {
            self.bytes = 0;
        }
        Ok(gap)
    }

    fn between(&mut self, token: &Token, next: &Token) -> Gap
        ensures { result ≡ Nothing → MayTouch token.now (next.now ∷ []) }
    {
        let line = self.depth.min(DEEPEST);
        if symbol(next) == Some(b')') && self.end() {
            return Gap::Line(self.depth.min(DEEPEST));
        }
        if !self.in_line && breaks(word(token), word(next)) {
            return Gap::Line(line);
        }
        if touches(token, next) {
            return Gap::Nothing;
        }
        if symbol(token) == Some(b',') && self.bytes > WIDE {
            return Gap::Line(line.saturating_add(2));
        }
        Gap::Blank
    }

    fn begin(&mut self, inside: Inside) -> Result<(), NoMemory> {
        match inside {
            Inside::Operands => (),
            Inside::ShortQuery => self.in_line = true,
            Inside::Query => self.depth = self.depth.saturating_add(1),
        }
        self.open.push(inside)
    }

    /// Closes a parenthesis, and says whether it held a query in lines of its own.
    fn end(&mut self) -> bool {
        match self.open.pop() {
            Some(Inside::Query) => {
                self.depth = self.depth.saturating_sub(1);
                true
            }
            Some(Inside::ShortQuery) => {
                self.in_line = false;
                false
            }
            Some(Inside::Operands) | None => false,
        }
    }
}
