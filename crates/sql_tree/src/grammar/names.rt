ghost use Rattle.std.specs.Prelude.{◌≡◌, ◌<◌, ◌≤◌, length, IfOk};
ghost use Rattle.sql_tree.specs.grammar.Building as b;
ghost use Rattle.sql_tree.specs.grammar.Cursors as spec;
ghost use Rattle.sql_tree.specs.grammar.Symbols as n;

use crate::grammar::cursor::Cursor;
use crate::grammar::lists::list_of;
use crate::grammar::sort::{NAMES, Sort};
use crate::grammar::unread::Unread;
use crate::{ColRef, Name};
use perm_values::{List, NoMemory};
use sql_lexer::Token;
use std::alloc::Global;

impl<'a> Cursor<'a> {
    #[tactic(auto, using(crate::proofs::Steps::name_of_is))]
    pub fn name(&mut self) -> Result<Name, Unread>
        ensures given { spec.Reads result (spec.reading n.NameOf self.old) self.new }
        ensures fewer { IfOk result (λ _. length self.new < length self.old) }
    {
        let token = self.one(&NAMES)?;
        Ok(name_of(self.alloc(), token)?)
    }

    /// The name behind a dot, if there is one.
    #[tactic(auto, using(crate::proofs::Steps::qualified_is))]
    pub fn name_behind_dot(&mut self) -> Result<Option<Name>, Unread>
        ensures given { spec.Reads result (spec.reading n.Qualified self.old) self.new }
        ensures fewer { IfOk result (λ _. length self.new ≤ length self.old) }
    {
        if self.sees(Sort::Dot) {
            self.past(Sort::Dot)?;
            Ok(Some(self.name()?))
        } else {
            Ok(None)
        }
    }

    #[tactic(auto, using(crate::proofs::Steps::column_of_is))]
    pub fn column(&mut self) -> Result<ColRef, Unread>
        ensures given { spec.Reads result (spec.reading n.ColumnOf self.old) self.new }
        ensures fewer { IfOk result (λ _. length self.new < length self.old) }
    {
        let first = self.name()?;
        let second = self.name_behind_dot()?;
        Ok(reference(first, second))
    }
}

/// The name that a token is.
pub fn name_of(alloc: Global, token: &Token<'_>) -> Result<Name, NoMemory>
    ensures { IfOk result (λ name. name ≡ b.name_of token.now) }
{
    Ok(Name {
        text: token.spelled(alloc)?,
        at: token.start(),
    })
}

/// The column of an item, or the column alone.
pub fn reference(first: Name, second: Option<Name>) -> ColRef
    ensures { result ≡ b.reference first second }
{
    let at = first.at;
    match second {
        Some(name) => ColRef {
            at,
            table: Some(first),
            name,
        },
        None => ColRef {
            at,
            table: None,
            name: first,
        },
    }
}

impl<'a> Cursor<'a> {
    /// Names with commas between them.
    #[tactic(auto, using(crate::proofs::Steps::names_is))]
    pub fn names(&mut self) -> Result<List<Name>, Unread>
        ensures given { spec.Reads result (spec.reading n.Names self.old) self.new }
        ensures fewer { IfOk result (λ _. length self.new ≤ length self.old) }
    {
        list_of(self, Sort::Comma, |cursor: &mut Cursor<'_>| cursor.name())
    }
}
