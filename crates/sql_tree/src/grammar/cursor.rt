ghost use Rattle.std.specs.Prelude.{◌≡◌, ◌<◌, ◌≤◌, [], ◌∷◌, length, IfOk};
ghost use Rattle.sql_tree.specs.grammar.Cursors as spec;
ghost use Rattle.sql_tree.specs.grammar.built.Pieces as piece;
ghost use Rattle.sql_tree.specs.grammar.built.Sequences as sequence;

use crate::grammar::sort::{NAMES, Sort, is_among, same_sort, sort_of};
use crate::grammar::unread::Unread;
use sql_lexer::Token;
use std::alloc::Global;
use std::marker::Model;

/// The tokens that are still to be read.
#[derive(Drop)]
pub struct Cursor<'a> {
    alloc: Global,
    tokens: &'a [Token<'a>],
    /// The sort of the next token, if there is one.
    sort: Option<Sort>,
}

impl<'a> Model for Cursor<'a> {
    ghost use Rattle.std.specs.Prelude.{◌≡◌, List};
    ghost use Rattle.sql_lexer.specs.declared.token.Token.{Token};
    ghost use Rattle.sql_tree.specs.grammar.Cursors.{next_sort};

    ghost Value = { List Token };

    ghost view = { λ c. c.tokens.now };

    ghost invariant = { λ c. c.sort ≡ next_sort c.tokens.now };
}

fn next_sort(tokens: &[Token<'_>]) -> Option<Sort>
    ensures { result ≡ spec.next_sort tokens.now }
{
    match tokens.first() {
        Some(token) => Some(sort_of(token)),
        None => None,
    }
}

/// Whether a dot and a star stand first.
fn dot_and_star(tokens: &[Token<'_>]) -> bool
    ensures { result ≡ sequence.dot_and_star tokens.now }
{
    match tokens {
        [dot, star, ..] => {
            same_sort(sort_of(dot), Sort::Dot) && same_sort(sort_of(star), Sort::Star)
        }
        [] | [_] => false,
    }
}

impl<'a> Cursor<'a> {
    pub fn new(alloc: Global, tokens: &'a [Token<'a>]) -> Cursor<'a>
        ensures { result ≡ tokens.now }
    {
        Cursor {
            alloc,
            tokens,
            sort: next_sort(tokens),
        }
    }

    pub fn alloc(&self) -> Global {
        self.alloc
    }

    /// How many tokens are left.
    pub fn left(&self) -> usize
        ensures { result ≡ length self.now }
    {
        self.tokens.len()
    }

    /// The offset of the next token, or 0 where none is left.
    pub fn offset(&self) -> usize
        ensures { result ≡ spec.offset self.now }
    {
        match self.tokens.first() {
            Some(token) => token.start(),
            None => 0,
        }
    }

    /// The offset of the next token, if there is one.
    pub fn next_offset(&self) -> Option<usize>
        ensures { result ≡ spec.next_offset self.now }
    {
        match self.tokens.first() {
            Some(token) => Some(token.start()),
            None => None,
        }
    }

    /// Whether the next token is of this sort.
    pub fn sees(&self, sort: Sort) -> bool
        ensures { result ≡ spec.sees (sort ∷ []) self.now }
    {
        match self.sort {
            Some(found) => same_sort(found, sort),
            None => false,
        }
    }

    /// Whether the next token is of one of these sorts.
    pub fn sees_any(&self, sorts: &[Sort]) -> bool
        ensures { result ≡ spec.sees sorts.now self.now }
    {
        match self.sort {
            Some(found) => is_among(found, sorts),
            None => false,
        }
    }

    /// Whether the next token is of one of these sorts, and the one behind it of one of those.
    pub fn sees_pair(&self, sorts: &[Sort], behind: &[Sort]) -> bool
        ensures { result ≡ piece.sees_pair sorts.now behind.now self.now }
    {
        match self.tokens {
            [_, second, ..] => self.sees_any(sorts) && is_among(sort_of(second), behind),
            [] | [_] => false,
        }
    }

    /// Takes the next token, if there is one.
    fn take(&mut self) -> Result<&'a Token<'a>, Unread>
        ensures given { spec.Sees (λ token. token.now) result (spec.next self.old) self.new }
        ensures fewer { IfOk result (λ _. length self.new < length self.old) }
    {
        match self.tokens.split_first() {
            Some((token, rest)) => {
                *self = Cursor::new(self.alloc, rest);
                Ok(token)
            }
            None => Err(Unread::Unexpected),
        }
    }

    /// Takes the next token, which has to be of one of these sorts.
    pub fn one(&mut self, sorts: &[Sort]) -> Result<&'a Token<'a>, Unread>
        ensures given { spec.Sees (λ token. token.now) result (spec.one sorts.now self.old) self.new }
        ensures fewer { IfOk result (λ _. length self.new < length self.old) }
    {
        if self.sees_any(sorts) {
            self.take()
        } else {
            Err(Unread::Unexpected)
        }
    }

    /// Goes past the next token, which has to be of this sort.
    pub fn past(&mut self, sort: Sort) -> Result<(), Unread>
        ensures given { spec.Reads result (spec.past sort self.old) self.new }
        ensures fewer { IfOk result (λ _. length self.new < length self.old) }
    {
        if self.sees(sort) {
            self.take()?;
            Ok(())
        } else {
            Err(Unread::Unexpected)
        }
    }

    /// Goes past the next token where it is of this sort, and says whether it is.
    pub fn passes(&mut self, sort: Sort) -> Result<bool, Unread>
        ensures given { spec.Reads result (piece.passes sort self.old) self.new }
        ensures fewer { IfOk result (λ _. length self.new ≤ length self.old) }
    {
        if self.sees(sort) {
            self.past(sort)?;
            Ok(true)
        } else {
            Ok(false)
        }
    }

    /// Goes past the next two tokens, which have to be of these sorts.
    pub fn past_both(&mut self, first: Sort, second: Sort) -> Result<(), Unread>
        ensures given { spec.Reads result (sequence.both first second self.old) self.new }
        ensures fewer { IfOk result (λ _. length self.new < length self.old) }
    {
        self.past(first)?;
        self.past(second)
    }

    /// Goes past a token that has to be of the second sort, and past one of the first before it, if there is one.
    pub fn past_behind(&mut self, option: Sort, sort: Sort) -> Result<(), Unread>
        ensures given { spec.Reads result (sequence.behind_option option sort self.old) self.new }
        ensures fewer { IfOk result (λ _. length self.new < length self.old) }
    {
        self.passes(option)?;
        self.past(sort)
    }

    /// The value that was read, where a token of this sort stands next; it is passed. It is generic, so that what is let
    /// go where none does isn't taken apart in each function.
    pub fn value_before<T: Drop>(&mut self, value: T, sort: Sort) -> Result<T, Unread>
        ensures given { spec.Reads result (sequence.value_before sort value self.old) self.new }
        ensures fewer { IfOk result (λ _. length self.new < length self.old) }
    {
        self.past(sort)?;
        Ok(value)
    }

    /// Whether a name, a dot and a star stand next.
    pub fn sees_table_star(&self) -> bool
        ensures { result ≡ piece.sees_table_star self.now }
    {
        match self.tokens {
            [_, behind @ ..] => self.sees_any(&NAMES) && dot_and_star(behind),
            [] => false,
        }
    }
}
